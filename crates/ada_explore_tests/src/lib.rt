//! Tests of the search of all schedules, beside a plain one that takes no two states for the same.
#![tactic(auto)]

#[cfg(test)]
mod counting;
#[cfg(test)]
mod covering;
#[cfg(test)]
mod finding;
#[cfg(test)]
mod late;
#[cfg(test)]
mod picks;
#[cfg(test)]
mod plain;
#[cfg(test)]
mod random;
#[cfg(test)]
mod stopping;
