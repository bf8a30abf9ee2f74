//! Following a log on a kernel.
ghost use Rattle.std.specs.Prelude.{◌≡◌, ◌<◌, ◌^◌, length, IfOk, IfErr, OnOk};
ghost use Rattle.ada_statements.specs.Text.{lines_of};
ghost use Rattle.ada_replay.specs.Ends.{state};
ghost use Rattle.ada_replay.specs.Courses.{beginning, IsCourse, ManyConform};
ghost use Rattle.ada_replay.specs.internal.Stopping.{judged as judged_so};
ghost use Rattle.ada_replay.specs.declared.judgement.Stop.TheVariants as stops;

use crate::RunFault;
use crate::judgement::{Judgement, Stop};
use crate::log_line::take_line;
use ada_kernel::Kernel;
use ada_script::cursor::Lines;
use ada_script::{Cause, Names, ScriptFault};
use std::alloc::Global;

/// What a log came to.
#[derive(Drop)]
pub struct Course {
    pub judgement: Judgement,
    /// How many lines conform: those before the one that stops the log, or all.
    pub lines: u32,
    /// The kernel after these lines.
    pub kernel: Kernel,
    /// The names that they declare, with what these are bound to, and the one that a refused line declares.
    pub names: Names,
}

// What it means that the line of a number stops a log.
fn judged(number: u32, stop: Stop) -> Result<Judgement, RunFault>
    ensures ok { IfOk result (λ judgement. judgement ≡ judged_so number stop) }
    ensures found { OnOk result (stop ≡ stops.Faulty Cause.OutOfMemory → ⊥) }
    ensures err { IfErr result (λ fault. fault ≡ RunFault.Memory) }
{
    match stop {
        Stop::Refused(statement, cause) => Ok(Judgement::Refused {
            line: number,
            statement,
            cause,
        }),
        Stop::Faulty(Cause::OutOfMemory) => Err(RunFault::Memory),
        Stop::Faulty(cause) => Ok(Judgement::Faulty(ScriptFault {
            line: number,
            cause,
        })),
    }
}

// Takes the lines of a log up to the first that stops it: how it is judged, and how many lines came before that one.
#[tactic(auto, using(crate::proofs::Following::lines_few, crate::proofs::Following::stops_here, crate::proofs::Following::stops_after, crate::proofs::Following::leads_on))]
fn take_lines(
    alloc: Global,
    kernel: &mut Kernel,
    names: &mut Names,
    log: &[u8],
) -> Result<(Judgement, u32), RunFault>
    requires { length log.now < 2 ^ 32 }
    ensures ok { IfOk result (λ taken. IsCourse 1 (lines_of log.now)
        (state kernel.old names.old) taken.0 (state kernel.new names.new)) }
    ensures lines { IfOk result (λ taken.
        ManyConform taken.0 (length (lines_of log.now)) taken.1) }
    ensures err { IfErr result (λ fault. fault ≡ RunFault.Memory) }
{
    let mut number = 0u32;
    let mut rest = Lines::new(log);
    while let Some(line) = rest.next() {
        if let Err(stop) = take_line(alloc, kernel, names, line) {
            let judgement = judged(number + 1, stop)?;
            return Ok((judgement, number));
        }
        number += 1;
    }
    Ok((Judgement::Conforms, number))
}

/// Follows a log, of which each line is complete, on a kernel of its own, up to the first line that stops it. An `Err`
/// is `Memory`.
pub fn follow(alloc: Global, log: &[u8]) -> Result<Course, RunFault>
    requires { length log.now < 2 ^ 32 }
    ensures ok { IfOk result (λ course. IsCourse 1 (lines_of log.now) beginning course.judgement
        (state course.kernel course.names)) }
    ensures lines { IfOk result (λ course.
        ManyConform course.judgement (length (lines_of log.now)) course.lines) }
    ensures err { IfErr result (λ fault. fault ≡ RunFault.Memory) }
{
    let mut names = Names::new(alloc).map_err(|_| RunFault::Memory)?;
    let mut kernel = Kernel::new(alloc).map_err(|_| RunFault::Memory)?;
    let (judgement, lines) = take_lines(alloc, &mut kernel, &mut names, log)?;
    Ok(Course {
        judgement,
        lines,
        kernel,
        names,
    })
}
