//! Tests of the kernel by its calls alone: its limits, long chains of tasks, and what it answers about its tasks and
//! entries; random requests of it beside the reference; why its tasks wait; and tests of its tables and of its agenda
//! at their limits.
#![tactic(auto)]

#[cfg(test)]
mod agenda;
#[cfg(test)]
mod asserts;
#[cfg(test)]
mod chains;
#[cfg(test)]
mod checked_tables;
#[cfg(test)]
mod creation;
#[cfg(test)]
mod crowd;
#[cfg(test)]
mod filling;
#[cfg(test)]
mod journals;
#[cfg(test)]
mod kernel_memory;
#[cfg(test)]
mod limits;
#[cfg(test)]
mod mixes;
#[cfg(test)]
mod names;
#[cfg(test)]
mod nests;
#[cfg(test)]
mod plain;
#[cfg(test)]
mod queries;
#[cfg(test)]
mod queues;
#[cfg(test)]
mod random;
#[cfg(test)]
mod requests;
#[cfg(test)]
mod scenes;
#[cfg(test)]
mod side_by_side;
#[cfg(test)]
mod table_memory;
#[cfg(test)]
mod tally;
#[cfg(test)]
mod waiting;
