//! Callers of the kernel, each with promises of its own: how a library above it is written, and proved from the
//! contracts of the calls and the laws of journals alone. `CALLING.md` of each crate that is called shows its caller.
#![tactic(auto)]

pub mod aborting;
pub mod keeping;
pub mod playing;
pub mod sleeping;
pub mod watching;

pub use aborting::stop;
pub use keeping::give_up;
pub use playing::journal_of;
pub use sleeping::sleep_until;
pub use watching::is_gone;
