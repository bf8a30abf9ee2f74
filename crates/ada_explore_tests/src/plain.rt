//! A plain search: it goes through each schedule to its end, and takes no two states for the same.

use ada_events::TaskNo;
use ada_explore::{Freedom, Halt, Picks, Space, Standing, Time, Turn, is_stuck};
use ada_kernel::Kernel;
use ada_script::{Line, Statement};
use ada_search::follow;
use ada_waiting::next_due;
use std::alloc::Global;

/// Picks and ticks are those that are written.
pub const AS_WRITTEN: Freedom = Freedom {
    picks: Picks::AsWritten,
    time: Time::ByTicks,
};

/// What schedules come to.
#[derive(Clone, Copy, Debug, PartialEq, Eq)]
pub struct Ends {
    /// How many lines the shortest one has that gets stuck; none if none does.
    pub stuck: Option<usize>,
    /// Whether one ends with a task that is held up, though it has lines left, and nothing is due.
    pub stops: bool,
}

/// What the schedules of a script come to with the picks that are written, and time as is said. It has at most so many,
/// with all that begin them.
pub fn ends_of(space: Space<'_>, most: u32) -> Result<Ends, Halt> {
    let mut ends = Ends {
        stuck: None,
        stops: false,
    };
    let script = space.script.lines();
    let mut open = Vec::new(space.alloc);
    open.push(Vec::new(space.alloc)).map_err(|_| Halt::Memory)?;
    for _ in 0..most {
        let Some(path) = open.pop() else {
            return Ok(ends);
        };
        let standing = follow(space.alloc, &space, &path)?;
        let met = open.len();
        go_on(space, &standing, &path, &mut open)?;
        if is_stuck(&standing.kernel) {
            ends.stuck = Some(shorter(ends.stuck, path.len()));
        } else if open.len() == met && stops(script, &standing) {
            ends.stops = true;
        }
    }
    Err(Halt::TooLong)
}

impl Ends {
    /// What these schedules come to and others.
    pub fn with(self, other: Ends) -> Ends {
        let stuck = match other.stuck {
            Some(length) => Some(shorter(self.stuck, length)),
            None => self.stuck,
        };
        Ends {
            stuck,
            stops: self.stops || other.stops,
        }
    }
}

fn shorter(shortest: Option<usize>, length: usize) -> usize {
    match shortest {
        Some(other) => other.min(length),
        None => length,
    }
}

// Puts each schedule that has one turn more to those that are open. Time passes late where no line may come.
fn go_on(
    space: Space<'_>,
    standing: &Standing,
    path: &[Turn],
    open: &mut Vec<Vec<Turn>>,
) -> Result<(), Halt> {
    let met = open.len();
    for place in &standing.rest.left {
        if standing
            .rest
            .may_come(space.script.lines(), &standing.kernel, *place)
        {
            let turn = Turn::Line {
                place: *place,
                pick: None,
            };
            open.push(longer(space.alloc, path, turn)?)
                .map_err(|_| Halt::Memory)?;
        }
    }
    let is_due = next_due(&standing.kernel).is_some();
    if space.freedom.time == Time::Late && open.len() == met && is_due {
        open.push(longer(space.alloc, path, Turn::Time)?)
            .map_err(|_| Halt::Memory)?;
    }
    Ok(())
}

fn longer(alloc: Global, path: &[Turn], turn: Turn) -> Result<Vec<Turn>, Halt> {
    let mut longer = Vec::new(alloc);
    for other in path {
        longer.push(*other).map_err(|_| Halt::Memory)?;
    }
    longer.push(turn).map_err(|_| Halt::Memory)?;
    Ok(longer)
}

// Whether a task that has lines left is held up where no line may come, and nothing is due.
fn stops(script: &[Line], standing: &Standing) -> bool {
    next_due(&standing.kernel).is_none()
        && standing.rest.left.iter().any(|place| match script.get(usize::from(*place)) {
            Some(line) => match speaker(&line.statement, standing) {
                Some(task) => is_held(&standing.kernel, task),
                None => false,
            },
            None => false,
        })
}

// The task of a line of the random scripts.
fn speaker(statement: &Statement, standing: &Standing) -> Option<TaskNo> {
    match statement {
        Statement::Up { by }
        | Statement::Accept { by, .. }
        | Statement::Select { by, .. }
        | Statement::Call { by, .. }
        | Statement::CallWithin { by, .. }
        | Statement::Try { by, .. }
        | Statement::End { by }
        | Statement::Delay { by, .. }
        | Statement::Abort { by, .. }
        | Statement::Complete { by } => Some(standing.rest.names.task(by)),
        _ => None,
    }
}

// Whether a task hasn't ended, doesn't run, and can't terminate where it is.
fn is_held(kernel: &Kernel, task: TaskNo) -> bool {
    let is_callable = kernel.callable(task) == Some(true);
    let may_quit = kernel
        .record(task)
        .map(|record| record.suspension.quittable);
    is_callable && kernel.running(task) == Some(false) && may_quit == Some(false)
}
