//! Behaviours of three objects whose schedules were gone through by hand, and tests of the search over them.
#![tactic(auto)]

#[cfg(test)]
mod covering;
pub mod plan;

pub use plan::{Bob, Place, Places, Plan};
