//! Explains and checks a script of requests to the tasking kernel: what a command line orders, and how it is obeyed.
#![tactic(auto)]

pub mod announced;
pub mod checking;
pub mod conforming;
pub mod draw_order;
pub mod explain_order;
pub mod exploring;
pub mod fixing;
pub mod input;
pub mod line_numbers;
pub mod obeying;
pub mod order;
pub mod output;
pub mod page_order;
pub mod paging;
pub mod painting;
pub mod report;
pub mod schedules;
pub mod watching;

use ada_findings::{Failure, Finding, ScopeFault, status_of};
use ada_replay::RunFault;
use clap::Error;
use clap::error::ErrorKind;
use obeying::{Terminals, obey};
use order::order_of;
use output::refused;
use std::env::VarError;
use std::io::{Eprint, IsTerminal, Print};
use std::process::ExitCode;
use std::{env, io};

fn main(rt: HostRuntime) -> ExitCode {
    match words_of(&rt) {
        Ok(words) => try_words(&rt, &words),
        Err(fault) => refuse_words(&rt, &fault),
    }
}

// The words of the command line, the program's name first.
fn words_of(rt: &HostRuntime) -> io::Result<Vec<String>> {
    let words = env::args(rt)?.collect(rt.alloc())?;
    Ok(words)
}

fn try_words(rt: &HostRuntime, words: &[String]) -> ExitCode {
    match order_of(rt.alloc(), words) {
        Ok(order) => {
            let terminals = Terminals {
                is_colored: order.is_colored(may_be_colored(rt, order.is_told_on_error())),
                is_watched: !is_dumb(rt) && rt.stderr().is_terminal(),
            };
            end(rt, &obey(rt, order.job, terminals))
        }
        Err(fault) => answer(rt, &fault),
    }
}

// Whether the standard output, or else standard error, is a terminal that has colours, and nobody asks that nothing has
// them.
fn may_be_colored(rt: &HostRuntime, is_on_error: bool) -> bool {
    let asks = match env::var(rt, "NO_COLOR") {
        Ok(text) => !text.is_empty(),
        Err(VarError::NotPresent) => false,
        Err(_) => true,
    };
    let is_terminal = if is_on_error {
        rt.stderr().is_terminal()
    } else {
        rt.stdout().is_terminal()
    };
    !asks && !is_dumb(rt) && is_terminal
}

fn is_dumb(rt: &HostRuntime) -> bool {
    match env::var(rt, "TERM") {
        Ok(terminal) => terminal.as_str() == "dumb",
        Err(_) => false,
    }
}

// Help, or why the words are refused.
fn answer<R: Print + Eprint>(rt: &R, fault: &Error) -> ExitCode {
    if fault.kind() == ErrorKind::OutOfMemory {
        return end(rt, &failed(ScopeFault::Run(RunFault::Memory)));
    }
    match fault.print(rt) {
        // Where standard error can't be written, the words are refused all the same.
        Err(failure) if !fault.use_stderr() => end(rt, &failed(refused(&failure))),
        _ => ExitCode::from(fault.exit_code() as u8),
    }
}

fn refuse_words<R: Eprint>(rt: &R, fault: &io::Error) -> ExitCode {
    if fault.kind() == io::ErrorKind::OutOfMemory {
        return end(rt, &failed(ScopeFault::Run(RunFault::Memory)));
    }
    let _ = eprintln!(rt; "error: a word of the command line is not UTF-8 text");
    ExitCode::from(2)
}

fn failed<'a>(fault: ScopeFault) -> Result<Finding, Failure<'a>> {
    Err(Failure { file: None, fault })
}

fn end<R: Eprint>(rt: &R, outcome: &Result<Finding, Failure<'_>>) -> ExitCode {
    if let Err(failure) = outcome {
        complain(rt, failure);
    }
    ExitCode::from(status_of(outcome))
}

// A reader that went away wants no more.
fn complain<R: Eprint>(rt: &R, failure: &Failure<'_>) {
    let fault = &failure.fault;
    let _ = match failure.file {
        _ if matches!(fault, ScopeFault::Closed) => Ok(()),
        Some(file) => eprintln!(rt; "adascope: {file}: {fault}"),
        None => eprintln!(rt; "adascope: {fault}"),
    };
}
