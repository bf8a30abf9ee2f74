//! One line of a log.
ghost use Rattle.std.specs.Prelude.{◌≡◌, ◌⊎◌, OnOk, OnErr, IfErr};
ghost use Rattle.ada_replay.specs.Ends.{state};
ghost use Rattle.ada_replay.specs.Play.{Accepts, Refuses};
ghost use Rattle.ada_replay.specs.Lines.{declared, Passes};
ghost use Rattle.ada_replay.specs.internal.Stopping.{IsStop, IsTurnedDown};

use crate::judgement::Stop;
use crate::play::next_task;
use crate::shows::shown;
use ada_events::Refusal;
use ada_kernel::Kernel;
use ada_script::cursor::Words;
use ada_script::{Cause, Names, Statement, check_plain, is_skipped, read_words, request};
use std::alloc::Global;

// Asks of the kernel what a statement asks, and binds the name that it declares.
fn ask(kernel: &mut Kernel, names: &mut Names, statement: &Statement) -> Result<(), Refusal>
    ensures ok { OnOk result (Accepts statement.now (state kernel.old names.old)
        (state kernel.new names.new)) }
    ensures err { IfErr result (λ cause. (cause ≡ Refusal.OutOfMemory)
        ⊎ Refuses statement.now (state kernel.old names.old) cause) }
    ensures unchanged { OnErr result ((kernel.new ≡ kernel.old) × (names.new ≡ names.old)) }
{
    match request(statement, names) {
        Some(request) => {
            let made = next_task(kernel);
            let at = kernel.step(request)?;
            names.bind(statement, at, made);
            Ok(())
        }
        None => match shown(kernel, names, statement) {
            Ok(_) => Ok(()),
            Err(cause) => Err(cause),
        },
    }
}

// Declares the name that a statement declares, and asks what it asks.
fn take_statement(kernel: &mut Kernel, names: &mut Names, statement: Statement) -> Result<(), Stop>
    ensures ok { OnOk result (Accepts statement (declared (state kernel.old names.old) statement)
        (state kernel.new names.new)) }
    ensures err { IfErr result (λ stop. IsTurnedDown statement (state kernel.old names.old) stop
        (state kernel.new names.new)) }
{
    names.declare(&statement)?;
    match ask(kernel, names, &statement) {
        Ok(()) => Ok(()),
        Err(Refusal::OutOfMemory) => Err(Stop::Faulty(Cause::OutOfMemory)),
        Err(cause) => Err(Stop::Refused(statement, cause)),
    }
}

/// Takes a line: it is skipped, or it is a statement that the kernel accepts.
#[tactic(auto, using(crate::proofs::Following::says_it, crate::proofs::Following::stops_line))]
pub fn take_line(
    alloc: Global,
    kernel: &mut Kernel,
    names: &mut Names,
    line: &[u8],
) -> Result<(), Stop>
    ensures ok { OnOk result (Passes line.now (state kernel.old names.old)
        (state kernel.new names.new)) }
    ensures err { IfErr result (λ stop. IsStop line.now (state kernel.old names.old) stop
        (state kernel.new names.new)) }
{
    // A log may have more lines than a script.
    check_plain(line)?;
    let mut words = Words::new(line);
    if is_skipped(&words) {
        return Ok(());
    }
    let statement = read_words(alloc, names, &mut words)?;
    take_statement(kernel, names, statement)
}
