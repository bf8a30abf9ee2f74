//! Tests of a kernel that lives on and of shorter journals: what such a kernel answers once its journal was made
//! shorter, tasks that are given up, limits, and whether two keep the same; states that are hard to bring about again,
//! each made by a script, with the tasks and the outcomes that a second kernel has in their place, and what it refuses;
//! and of callers.
#![tactic(auto)]

#[cfg(test)]
mod alike;
#[cfg(test)]
mod answers;
#[cfg(test)]
mod asking;
#[cfg(test)]
mod callers;
#[cfg(test)]
mod clock;
#[cfg(test)]
mod comparing;
#[cfg(test)]
mod events;
#[cfg(test)]
mod given_up;
#[cfg(test)]
mod last_request;
#[cfg(test)]
mod lengths;
#[cfg(test)]
mod limits;
#[cfg(test)]
mod no_room;
#[cfg(test)]
mod outcomes;
#[cfg(test)]
mod playing;
#[cfg(test)]
mod states;
#[cfg(test)]
mod waiting;
#[cfg(test)]
mod wrong;
