//! What a kernel that lives on is asked, and answers, in numbers.

pub mod answers;
pub mod clocked;
mod outcomes;
pub mod questions;
pub mod requests;

pub use answers::{answer, wait};
pub use requests::{
    abort_in, activate_in, call_in, close_in, complete_in, create_in, delay_in, elaborated_in,
    end_in, open_in, tick_to,
};
