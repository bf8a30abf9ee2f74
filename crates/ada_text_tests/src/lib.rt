//! Tests of the reader of Ada texts: the programs of the tour, each rule of the grammar, each refusal with its place,
//! and the limits.
#![tactic(auto)]

#[cfg(test)]
mod common;
#[cfg(test)]
mod declarations;
#[cfg(test)]
mod expressions;
#[cfg(test)]
mod faults;
#[cfg(test)]
mod limits;
#[cfg(test)]
mod misnamed;
#[cfg(test)]
mod misstated;
#[cfg(test)]
mod mistyped;
#[cfg(test)]
mod names;
#[cfg(test)]
mod resolving;
#[cfg(test)]
mod shapes;
#[cfg(test)]
mod statements;
#[cfg(test)]
mod tour;
#[cfg(test)]
mod trees;
#[cfg(test)]
mod types;
#[cfg(test)]
mod typing;
#[cfg(test)]
mod visibility;
#[cfg(test)]
mod welltyped;
#[cfg(test)]
mod words;
