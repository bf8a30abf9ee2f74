//! What is told of all schedules of a script.

use crate::obeying::text_of;
use crate::order::Exploration;
use crate::output::write_text;
use crate::schedules::{Told, schedule_in};
use crate::watching::Watching;
use ada_explain::Source;
use ada_explore::{Finding as Explored, Freedom, Halt, Picks, Space, Time, Turn, explore};
use ada_findings::{Finding, ScopeFault};
use ada_replay::RunFault;
use ada_replay::replaying::read_script;
use std::fs;
use std::io::{Eprint, Input, Print};
use std::rt::Files;
use std::time::Clock;

/// Searches all schedules of a script, and tells what was found. The schedule that the verdict is about is written to
/// files, if some are named. A line on standard error says how the search goes on, if it is watched.
pub fn tell_schedules<R: Files + Input + Print + Eprint + Clock + AllocGlobal>(
    rt: &R,
    order: &Exploration<'_>,
    is_watched: bool,
) -> Result<Finding, ScopeFault> {
    let text = text_of(rt, order.file)?;
    let script = read_script(rt.alloc(), &text)?;
    let space = Space::new(rt.alloc(), &script, freedom_of(order)).map_err(fault_of)?;
    let found = search(rt, space, order, is_watched)?;
    let source = Source::of(rt.alloc(), &text).map_err(|_| RunFault::Memory)?;
    let told = Told {
        space,
        source: &source,
    };
    write_text(rt, &told.report(&found)?)?;
    if let Some(path) = schedule_in(&found) {
        write_schedule(rt, told, order, path)?;
    }
    Ok(finding_of(&found))
}

// What schedules may choose beside the order of lines.
fn freedom_of(order: &Exploration<'_>) -> Freedom {
    let picks = if order.has_all_picks {
        Picks::All
    } else {
        Picks::AsWritten
    };
    let time = if order.is_late {
        Time::Late
    } else {
        Time::ByTicks
    };
    Freedom { picks, time }
}

// Writes a schedule as a script, and as a list of its choices, to the files that are named.
fn write_schedule<R: Files + AllocGlobal>(
    rt: &R,
    told: Told<'_, '_>,
    order: &Exploration<'_>,
    path: &[Turn],
) -> Result<(), RunFault> {
    if let Some(name) = order.script {
        let lines = told.lines_of(path)?;
        fs::write(rt, name, lines.as_str()).map_err(|_| RunFault::Write)?;
    }
    if let Some(name) = order.choices {
        let choices = told.choices_of(path).map_err(|_| RunFault::Memory)?;
        fs::write(rt, name, choices.as_str()).map_err(|_| RunFault::Write)?;
    }
    Ok(())
}

fn finding_of(found: &Explored) -> Finding {
    if schedule_in(found).is_some() {
        Finding::Standstill
    } else if found.covered.is_some() {
        Finding::Nothing
    } else {
        Finding::Unknown
    }
}

fn search<R: Eprint + Clock + AllocGlobal>(
    rt: &R,
    space: Space<'_>,
    order: &Exploration<'_>,
    is_watched: bool,
) -> Result<Explored, RunFault> {
    let mut watching = Watching::new(rt, order.bounds, is_watched);
    let found = explore(space, order.bounds.states, &mut watching);
    watching.end();
    found.map_err(fault_of)
}

// Of a script that was read only want of memory comes.
fn fault_of(_halt: Halt) -> RunFault {
    RunFault::Memory
}
