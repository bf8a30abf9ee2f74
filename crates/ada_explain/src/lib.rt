//! A play is told: its account, which has the answer to each line, the kernel and the names at its end, its rows, and
//! what each task does from event to event; and sentences about it, why each event came, why a line was refused, who
//! waits for whom at its end, and what would let it go on.
#![tactic(auto)]

pub mod arrival;
mod asked;
pub mod causes;
pub mod circles;
pub mod clients;
pub mod end;
pub mod explanation;
mod forced;
pub mod lives;
pub mod nesting;
pub mod past;
pub mod reasons;
pub mod refusals;
pub mod rows;
pub mod rules;
pub mod scene;
pub mod sentences;
pub mod source;
pub mod standstill;

pub use explanation::{Explanation, explain};
pub use scene::Scene;
pub use source::Source;
