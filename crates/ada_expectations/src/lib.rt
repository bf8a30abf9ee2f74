//! What a script says of its own play, in comments such as `# expect: stuck`, and whether that is so.
#![tactic(auto)]

pub mod ending;
pub mod expectation;
pub mod judging;
pub mod reading;
pub mod telling;
#[cfg(test)]
mod tests;

pub use ending::Ending;
pub use expectation::{Expectation, Expected};
pub use judging::{Failing, Judgement, RefusedLine, judge};
pub use reading::{Expectations, expectations_in};
pub use telling::{Form, Outcome, Suite};
