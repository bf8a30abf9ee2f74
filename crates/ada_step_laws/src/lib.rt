//! What one more event changes in queues, nests and outcomes; who holds a master, and how blocks nest; where a journal
//! forces a step: the rows of the forced steps and the keys at which they give one; and at which keys each kind of
//! event can newly force one. Each law is the contract of a function that does nothing.
#![tactic(auto)]

pub mod additions;
pub mod changes;
pub mod holders;
pub mod keys;
pub mod row;

pub use row::Row;
