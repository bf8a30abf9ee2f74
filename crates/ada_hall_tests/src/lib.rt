//! Tests of boards and halls: readers beside a writer, in one thread and in several, and the answers to the lines of a
//! script.
#![tactic(auto)]

#[cfg(test)]
mod answering;
#[cfg(test)]
mod hall_memory;
#[cfg(test)]
mod open_boards;
#[cfg(test)]
mod opened;
#[cfg(test)]
mod reading;
#[cfg(test)]
mod scene;
#[cfg(test)]
mod stepping;
#[cfg(test)]
mod threads;
#[cfg(test)]
mod watchers;
