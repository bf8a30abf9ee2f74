//! The moments of a play: what is answered to each line, and what stands after it.
ghost use Rattle.std.specs.Prelude.{◌≡◌, ◌≤◌, ℕ, List, IfOk, IfErr, [], length};
ghost use Rattle.ada_events.specs.declared.event.Event.{Event as EventValue};
ghost use Rattle.ada_events.specs.Boards.{first_events};
ghost use Rattle.ada_replay.specs.Ends.{state};
ghost use Rattle.ada_replay.specs.Replay.{beginning};
ghost use Rattle.ada_page.specs.Standing.{AreQueued, IsStanding};
ghost use Rattle.ada_page.specs.Shows.{IsMoment, Shows};

use crate::calls::queued_since;
use crate::standing::{Standing, standing_of};
use crate::telling::{Said, Teller, Told};
use ada_kernel::Kernel;
use ada_replay::play::say;
use ada_replay::{Account, Answer, RunFault};
use ada_script::{Line, Names, Script};
use std::alloc::{AllocError, Global};

/// What stands after a line, and what stood in queues since that before it.
#[derive(Debug, Drop, PartialEq, Eq)]
pub struct Moment {
    pub standing: Standing,
    /// The positions of the calls that stand in queues before the line, and after each of its events, in the order in
    /// which they came (9.5).
    pub queued: Vec<Vec<u32>>,
}

/// A play, what stands at its beginning and after each line, and what is told of both.
#[derive(Drop)]
pub struct Shown {
    pub account: Account,
    /// What stands before the first line.
    pub first: Standing,
    /// The moment of each line.
    pub moments: Vec<Moment>,
    pub told: Told,
}

/// What some lines were answered, what they printed, and the moment of each.
#[derive(Drop)]
struct Played {
    answers: Vec<Answer>,
    text: Vec<u8>,
    moments: Vec<Moment>,
}

fn standing_in(alloc: Global, kernel: &Kernel) -> Result<Standing, RunFault>
    ensures ok { IfOk result (IsStanding kernel.now) }
    ensures err { IfErr result (λ fault. fault ≡ RunFault.Memory) }
{
    standing_of(alloc, kernel).map_err(|_| RunFault::Memory)
}

fn or_memory<T: Drop>(done: Result<T, AllocError>) -> Result<T, RunFault>
    ensures err { IfErr result (λ fault. fault ≡ RunFault.Memory) }
{
    done.map_err(|_| RunFault::Memory)
}

// What stands in a text after so many bytes.
fn after(text: &[u8], before: usize) -> &[u8] {
    text.get(before..).unwrap_or(&[])
}

// What stands in a kernel after a line, before which it had so many events, and these calls stood in queues.
fn moment_of(alloc: Global, kernel: &Kernel, known: u32, queued: &[u32]) -> Result<Moment, RunFault>
    requires known { known ≤ length kernel.now }
    requires queued { AreQueued (first_events known kernel.now) queued.now }
    ensures ok { IfOk result (IsMoment known kernel.now) }
    ensures err { IfErr result (λ fault. fault ≡ RunFault.Memory) }
{
    let events = kernel.journal().as_slice();
    let queued = queued_since(alloc, events, known as usize, queued).map_err(|_| RunFault::Memory)?;
    let standing = standing_in(alloc, kernel)?;
    Ok(Moment { standing, queued })
}

// The calls that stand in queues at last.
fn last_queued(moment: &Moment) -> &[u32]
    ensures { (known : ℕ) (journal : List EventValue) → known ≤ length journal
        → IsMoment known journal moment.now → AreQueued journal result.now }
{
    match moment.queued.last() {
        Some(calls) => calls,
        None => &[],
    }
}

// Plays some lines, one after another, and has it told what stands after each.
fn play_lines(
    alloc: Global,
    kernel: &mut Kernel,
    names: &mut Names,
    lines: &[Line],
    teller: &mut Teller,
) -> Result<Played, RunFault>
    requires { kernel.old ≡ [] }
    ensures ok { IfOk result (λ played.
        Shows lines.now (state kernel.old names.old) played.answers.items played.text.items
        played.moments.items (state kernel.new names.new)) }
    ensures err { IfErr result (λ fault. fault ≡ RunFault.Memory) }
{
    let mut answers = Vec::new(alloc);
    let mut text = Vec::new(alloc);
    let mut moments = Vec::new(alloc);
    let mut queued = Vec::new(alloc);
    for line in lines {
        let before = text.len();
        let known = kernel.journal().len();
        let answer = say(kernel, names, line, &mut text)?;
        let moment = moment_of(alloc, kernel, known, &queued)?;
        let said = Said {
            line,
            answer,
            printed: after(&text, before),
            queued: &moment.queued,
        };
        or_memory(teller.tell_line(kernel, names, lines, said, &moment.standing))?;
        queued = Vec::from_slice(alloc, last_queued(&moment)).map_err(|_| RunFault::Memory)?;
        answers.push(answer).map_err(|_| RunFault::Memory)?;
        moments.push(moment).map_err(|_| RunFault::Memory)?;
    }
    Ok(Played {
        answers,
        text,
        moments,
    })
}

// What tells of a play, once it has told what stands before the first line.
fn teller_of(
    alloc: Global,
    kernel: &Kernel,
    names: &Names,
    first: &Standing,
) -> Result<Teller, RunFault>
    ensures err { IfErr result (λ fault. fault ≡ RunFault.Memory) }
{
    let mut teller = or_memory(Teller::new(alloc))?;
    or_memory(teller.begin(kernel, names, first))?;
    Ok(teller)
}

// Plays some lines, which are told, after what stands before the first line.
fn told_lines(
    alloc: Global,
    kernel: &mut Kernel,
    names: &mut Names,
    lines: &[Line],
    first: &Standing,
) -> Result<(Played, Told), RunFault>
    requires { kernel.old ≡ [] }
    ensures ok { IfOk result (λ told.
        Shows lines.now (state kernel.old names.old) told.0.answers.items told.0.text.items
        told.0.moments.items (state kernel.new names.new)) }
    ensures err { IfErr result (λ fault. fault ≡ RunFault.Memory) }
{
    let mut teller = teller_of(alloc, kernel, names, first)?;
    let played = play_lines(alloc, kernel, names, lines, &mut teller)?;
    Ok((played, teller.into_told()))
}

/// Plays a script on a kernel of its own, and has it told what stands at the beginning and after each line. An `Err` is
/// `Memory`.
pub fn show(alloc: Global, script: Script) -> Result<Shown, RunFault>
    ensures ok { IfOk result (λ shown. (shown.account.lines.items ≡ script)
        × Shows script (beginning script) shown.account.answers.items shown.account.text.items
        shown.moments.items (state shown.account.kernel shown.account.names)) }
    ensures first { IfOk result (λ shown. IsStanding [] shown.first) }
    ensures err { IfErr result (λ fault. fault ≡ RunFault.Memory) }
{
    let (lines, mut names) = script.into_parts().map_err(|_| RunFault::Memory)?;
    let mut kernel = Kernel::new(alloc).map_err(|_| RunFault::Memory)?;
    let first = standing_in(alloc, &kernel)?;
    let (played, told) = told_lines(alloc, &mut kernel, &mut names, &lines, &first)?;
    Ok(Shown {
        account: Account {
            lines,
            answers: played.answers,
            text: played.text,
            kernel,
            names,
        },
        first,
        moments: played.moments,
        told,
    })
}
