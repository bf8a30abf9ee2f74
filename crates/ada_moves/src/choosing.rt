//! The moves of a behaviour that may come next.

ghost use Rattle.std.specs.Prelude.{◌≡◌, ◌++◌, ◌∷◌, [], OnOk, IfOk};
ghost use Rattle.ada_search.specs.Findings.{at, AreAll};
ghost use Rattle.ada_behaviours.specs.declared.want.Move.TheVariants as move;
ghost use Rattle.ada_behaviours.specs.Moves as moves;
ghost use Rattle.ada_moves.specs.internal.Choosing.{AreKept, IsListed, AreListedOf};

use crate::Rest;
use crate::asking::is_idle;
use crate::moving::all_idle;
use crate::rest::object_at;
use crate::telling::running_of;
use ada_behaviours::{Behaviour, Move, ObjectNo};
use ada_kernel::Kernel;
use ada_search::Halt;
use ada_waiting::next_due;
use std::alloc::Global;

// Puts a move after others.
fn add(choices: &mut Vec<Move>, choice: Move) -> Result<(), Halt>
    ensures { OnOk result (choices.new.items ≡ choices.old.items ++ choice ∷ []) }
{
    choices.push(choice).map_err(|_| Halt::Memory)
}

// Lists what an object does with a pick, if it wants anything.
fn list_pick<B: Behaviour>(
    alloc: Global,
    behaviour: &B,
    kernel: &Kernel,
    rest: &Rest<B::State>,
    object: ObjectNo,
    pick: u32,
    choices: &mut Vec<Move>,
) -> Result<(), Halt>
    ensures { OnOk result (AreKept choices.old.items choices.new.items
        × IsListed (B.told behaviour.now) kernel.now rest.now choices.new.items
        (move.Go object pick)) }
{
    let wanted = behaviour.wants(alloc, &rest.state, object, pick)?;
    if is_idle(&wanted) {
        return Ok(());
    }
    add(choices, Move::Go { object, pick })
}

// Lists what an object does with each pick.
fn list_picks<B: Behaviour>(
    alloc: Global,
    behaviour: &B,
    kernel: &Kernel,
    rest: &Rest<B::State>,
    object: ObjectNo,
    choices: &mut Vec<Move>,
) -> Result<(), Halt>
    ensures { OnOk result (AreKept choices.old.items choices.new.items
        × AreListedOf (B.told behaviour.now) kernel.now rest.now choices.new.items object) }
{
    for pick in 0..behaviour.picks(&rest.state, object) {
        list_pick(alloc, behaviour, kernel, rest, object, pick, choices)?;
    }
    Ok(())
}

// Lists what an object does, if its task runs.
fn list_object<B: Behaviour>(
    alloc: Global,
    behaviour: &B,
    kernel: &Kernel,
    rest: &Rest<B::State>,
    object: ObjectNo,
    choices: &mut Vec<Move>,
) -> Result<(), Halt>
    ensures { OnOk result (AreKept choices.old.items choices.new.items
        × AreListedOf (B.told behaviour.now) kernel.now rest.now choices.new.items object) }
{
    match running_of(kernel, &rest.tasks, object) {
        Some(_) => list_picks(alloc, behaviour, kernel, rest, object, choices),
        None => Ok(()),
    }
}

// Lists that time passes, if nobody wants anything and a task waits for a moment.
fn list_time<B: Behaviour>(
    alloc: Global,
    behaviour: &B,
    kernel: &Kernel,
    rest: &Rest<B::State>,
    choices: &mut Vec<Move>,
) -> Result<(), Halt>
    ensures { OnOk result (AreKept choices.old.items choices.new.items
        × IsListed (B.told behaviour.now) kernel.now rest.now choices.new.items move.Pass) }
{
    if next_due(kernel).is_none() || !all_idle(alloc, behaviour, kernel, rest)? {
        return Ok(());
    }
    add(choices, Move::Pass)
}

/// The moves that may come next.
pub(crate) fn choices<B: Behaviour>(
    alloc: Global,
    behaviour: &B,
    kernel: &Kernel,
    rest: &Rest<B::State>,
) -> Result<Vec<Move>, Halt>
    ensures { IfOk result (λ choices. AreAll (moves.behaving (B.told behaviour.now))
        (at kernel.now rest.now) choices.items) }
{
    let mut choices = Vec::new(alloc);
    for place in 0..rest.tasks.len() {
        list_object(
            alloc,
            behaviour,
            kernel,
            rest,
            object_at(place)?,
            &mut choices,
        )?;
    }
    list_time(alloc, behaviour, kernel, rest, &mut choices)?;
    Ok(choices)
}
