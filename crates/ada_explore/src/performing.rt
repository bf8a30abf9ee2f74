//! The next step of a schedule of a script.

ghost use Rattle.std.specs.Prelude.{◌≡◌, false, true, OnOk};
ghost use Rattle.ada_events.specs.declared.refusal.Refusal.TheVariants.{OutOfMemory};
ghost use Rattle.ada_laws.specs.Unlimited.{is_limit};
ghost use Rattle.ada_schedules.specs.Schedules.{Acts};
ghost use Rattle.ada_search.specs.Findings.{at as state};
ghost use Rattle.ada_explore.specs.declared.turns.Freedom.{Freedom as FreedomValue};
ghost use Rattle.ada_explore.specs.Scripts as scripts;

use crate::{Halt, Standing, Turn};
use ada_events::{Refusal, TaskNo};
use ada_script::Line;

// Whether the cause is one of the rules, and no limit of tasks, entries or events, nor want of memory.
#[tactic(auto, unfolding(ada_laws::specs::Unlimited::is_limit))]
fn of_the_rules(cause: Refusal) -> Result<(), Halt>
    ensures { OnOk result ((is_limit cause ≡ false) × (cause ≡ OutOfMemory → ⊥)) }
{
    match cause {
        Refusal::TooManyTasks | Refusal::TooManySlots | Refusal::JournalFull => {
            Err(Halt::Limit(cause))
        }
        Refusal::OutOfMemory => Err(Halt::Memory),
        _ => Ok(()),
    }
}

/// Makes the request of a turn, which may be taken. After an `Err` the schedule goes on from nowhere.
pub(crate) fn perform(
    script: &[Line],
    standing: &mut Standing,
    turn: Turn,
) -> Result<Option<Refusal>, Halt>
    ensures { OnOk result ((freedom : FreedomValue)
        → scripts.may_take freedom script.now standing.old.kernel standing.old.rest turn ≡ true
        → Acts (scripts.scripted freedom script.now) turn
        (state standing.old.kernel standing.old.rest)
        (state standing.new.kernel standing.new.rest)) }
{
    let Some(request) = standing.rest.request_in(script, &standing.kernel, turn) else {
        return Err(Halt::NoChoice);
    };
    let made = TaskNo(standing.kernel.tasks());
    let answer = standing.kernel.step(request);
    standing.rest.take(turn);
    match answer {
        Ok(at) => {
            standing.rest.bind(script, turn, at, made);
            Ok(None)
        }
        Err(cause) => {
            of_the_rules(cause)?;
            Ok(Some(cause))
        }
    }
}
