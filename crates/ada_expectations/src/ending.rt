//! How a play may end.
ghost use Rattle.std.specs.Prelude.{◌≡◌};
ghost use Rattle.ada_expectations.specs.Endings.{has_verdict, is_so};

use ada_explain::standstill::Standstill;
use ada_waiting::Verdict;
use std::alloc::AllocError;

/// How a play is expected to end.
#[derive(Clone, Copy, Debug, PartialEq, Eq)]
pub enum Ending {
    /// The main program is terminated.
    Terminated,
    /// No task runs, and no tick changes that.
    Stuck,
    /// Tasks wait for one another in a circle.
    Circle,
    /// No task runs, and a tick to this moment lets one go on, in milliseconds.
    WaitsUntil(i64),
    /// A task runs.
    GoesOn,
}

impl Ending {
    // Whether it is what can let a journal go on.
    fn has_verdict(self, verdict: Verdict) -> bool
        ensures { result ≡ has_verdict self verdict }
    {
        match (self, verdict) {
            (Ending::Terminated, Verdict::Finished) => true,
            (Ending::Stuck, Verdict::Stuck) => true,
            (Ending::GoesOn, Verdict::GoesOn) => true,
            (Ending::WaitsUntil(moment), Verdict::WaitsForTick { until }) => {
                moment <= until && until <= moment
            }
            _ => false,
        }
    }

    /// Whether a play ends so.
    pub fn is_so(self, end: Standstill) -> bool
        ensures { result ≡ is_so self end }
    {
        match self {
            Ending::Circle => end.has_circle,
            _ => self.has_verdict(end.verdict),
        }
    }

    /// Appends its words, as a comment has them.
    pub fn write(self, text: &mut String) -> Result<(), AllocError> {
        match self {
            Ending::Terminated => text.push_str("terminated"),
            Ending::Stuck => text.push_str("stuck"),
            Ending::Circle => text.push_str("circle"),
            Ending::WaitsUntil(moment) => write!(text, "waits until {moment}"),
            Ending::GoesOn => text.push_str("goes on"),
        }
    }
}

/// Appends how a play ends, in the same words.
pub fn write_end(text: &mut String, end: Standstill) -> Result<(), AllocError> {
    let ending = match end.verdict {
        Verdict::Finished => Ending::Terminated,
        Verdict::GoesOn => Ending::GoesOn,
        Verdict::WaitsForTick { until } => Ending::WaitsUntil(until),
        Verdict::Stuck => Ending::Stuck,
    };
    ending.write(text)?;
    if end.has_circle {
        text.push_str(", with a circle")?;
    }
    Ok(())
}
