//! What comes next in a schedule of a script, and which picks its selective waits may have.
ghost use Rattle.std.specs.Prelude.{◌≡◌, ◌<◌, ◌≤◌, ℕ, Some, true};
ghost use Rattle.ada_events.specs.declared.limits.TheConstants.{MOST_DELAYS};
ghost use Rattle.ada_explore.specs.Picks as picking;

use ada_events::{Request, Tail};
use ada_script::{Line, Statement};

/// One step of a schedule.
#[derive(Clone, Copy, Debug, PartialEq, Eq)]
pub enum Turn {
    /// A line comes, as it is written or with another pick.
    Line {
        /// The place of the line in the script, from 0.
        place: u16,
        /// The pick of its selective wait, if that isn't the one that is written.
        pick: Option<u32>,
    },
    /// Time passes, to the first moment for which a task waits (9.6).
    Time,
}

impl Turn {
    /// The place of its line; none if time passes.
    pub fn place(self) -> Option<u16> {
        match self {
            Turn::Line { place, .. } => Some(place),
            Turn::Time => None,
        }
    }
}

/// Which picks selective waits have.
#[derive(Clone, Copy, Debug, PartialEq, Eq)]
pub enum Picks {
    /// Those that are written.
    AsWritten,
    /// Those that are written, and all others that could matter.
    All,
}

/// How time passes, if no task can act.
#[derive(Clone, Copy, Debug, PartialEq, Eq)]
pub enum Time {
    /// By the ticks that are written, in their order.
    ByTicks,
    /// To the first moment for which a task waits. The ticks that are written are left out.
    Late,
}

/// What schedules may choose beside the order of lines.
#[derive(Clone, Copy, Debug, PartialEq, Eq)]
pub struct Freedom {
    pub picks: Picks,
    pub time: Time,
}

// How many delay alternatives a selective wait has.
fn delays_in(tail: &Tail) -> usize
    ensures value { result ≡ picking.delays_in tail.now }
    ensures fits { result ≤ MOST_DELAYS }
{
    match tail {
        Tail::Delays(pauses) => pauses.len(),
        _ => 0,
    }
}

// A number above each pick that could matter in a statement.
fn bound_of(statement: &Statement) -> u32
    ensures { (pick : ℕ) → picking.could_matter statement.now pick ≡ true → pick < result }
{
    match statement {
        Statement::Select { choices, tail, .. } => {
            (choices.as_slice().len() + delays_in(tail.get())) as u32
        }
        _ => 0,
    }
}

// Whether another pick than the one that is written could matter.
fn could_matter(statement: &Statement, pick: u32) -> bool
    ensures { result ≡ picking.could_matter statement.now pick }
{
    match statement {
        Statement::Select {
            pick: written,
            choices,
            tail,
            ..
        } => {
            let number = pick as usize;
            pick != *written
                && (number < choices.as_slice().len() || number < delays_in(tail.get()))
        }
        _ => false,
    }
}

/// A number above each pick that the line at a place may have beside the one that is written.
pub(crate) fn picks_below(picks: Picks, script: &[Line], place: u16) -> u32
    ensures { (pick : ℕ) → picking.may_have picks script.now place (Some pick) ≡ true
        → pick < result }
{
    match (picks, script.get(usize::from(place))) {
        (Picks::All, Some(line)) => bound_of(&line.statement),
        _ => 0,
    }
}

/// Whether the line at a place may have this pick.
pub(crate) fn may_have(picks: Picks, script: &[Line], place: u16, pick: Option<u32>) -> bool
    ensures { result ≡ picking.may_have picks script.now place pick }
{
    let Some(pick) = pick else {
        return true;
    };
    match (picks, script.get(usize::from(place))) {
        (Picks::All, Some(line)) => could_matter(&line.statement, pick),
        _ => false,
    }
}

/// A request with another pick, if it is a wait.
pub(crate) fn with_pick(pick: Option<u32>, request: Request) -> Request
    ensures { result ≡ picking.with_pick pick request }
{
    match request {
        Request::Wait {
            by,
            choices,
            tail,
            pick: written,
        } => Request::Wait {
            by,
            choices,
            tail,
            pick: pick.unwrap_or(written),
        },
        request => request,
    }
}
