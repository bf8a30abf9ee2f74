//! Scripts of requests to the tasking kernel: reading them, naming what they name, and printing what
//! the kernel answers.
//!
//! A text is cut into lines and these into words, and the words of a line are read as a statement;
//! back, the words of a statement are spelled.
#![tactic(auto)]

pub mod cursor;
mod fault;
pub mod laws;
mod lists;
mod number;
mod parts;
pub mod script;
mod select;
mod spelling;
pub mod statements;
pub mod text;
mod verb;
mod word;

pub use ada_printing::{Value, write_event, write_refusal, write_shown};
pub use ada_statements::{
    Alternative, Cause, Declaration, EntryName, EntryNames, Made, Meaning, Name, Names,
    RequestSink, ScriptFault, Statement, request, request_of, send,
};
pub use parts::is_name;
pub use script::{Line, Script};
pub use spelling::words;
pub use statements::read_words;
pub use text::{MOST_LINES, check_line, check_plain, is_skipped, read, read_within};
pub use word::Word;
