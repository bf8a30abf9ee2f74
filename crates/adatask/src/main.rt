//! Plays a script of requests to the tasking kernel, given on standard input, line by line or with one thread
//! for each task, and prints the events that it leads to on standard output.
#![tactic(auto)]

use ada_run::{Ending, Free, InTurn, Order, RunFault, order_of, read_and_run, replay, status_of};
use clap::Error;
use clap::error::ErrorKind;
use std::io::{Eprint, Input, Print};
use std::process::ExitCode;
use std::sync::Wait;
use std::thread::Threads;
use std::{env, io};

fn main(rt: HostRuntime) -> ExitCode {
    match words_of(&rt) {
        Ok(words) => obey(&rt, &words),
        Err(fault) => refuse_words(&rt, &fault),
    }
}

// The words of the command line, the program's name first.
fn words_of(rt: &HostRuntime) -> io::Result<Vec<String>> {
    let words = env::args(rt)?.collect(rt.alloc())?;
    Ok(words)
}

fn obey<R>(rt: &R, words: &[String]) -> ExitCode
where
    R: Threads + Wait + Sync + AllocGlobal + Input + Print + Eprint,
{
    let order = match order_of(rt.alloc(), words) {
        Ok(order) => order,
        Err(fault) => return answer(rt, &fault),
    };
    let reader = &mut rt.reader();
    let writer = &mut io::writer(rt);
    let outcome = match order {
        Order::Replay => replay(rt.alloc(), reader, writer),
        Order::Run => read_and_run(rt, reader, &InTurn, writer),
        Order::RunFree => read_and_run(rt, reader, &Free, writer),
    };
    end(rt, &outcome)
}

// Help, or why the words are refused.
fn answer<R: Print + Eprint>(rt: &R, fault: &Error) -> ExitCode {
    if fault.kind() == ErrorKind::OutOfMemory {
        return end(rt, &Err(RunFault::Memory));
    }
    // Where standard error can't be written, the words are refused all the same.
    if fault.print(rt).is_ok() || fault.use_stderr() {
        ExitCode::from(fault.exit_code() as u8)
    } else {
        end(rt, &Err(RunFault::Write))
    }
}

fn refuse_words<R: Eprint>(rt: &R, fault: &io::Error) -> ExitCode {
    if fault.kind() == io::ErrorKind::OutOfMemory {
        return end(rt, &Err(RunFault::Memory));
    }
    let _ = eprintln!(rt; "error: a word of the command line is not UTF-8 text");
    ExitCode::from(2)
}

fn end<R: Eprint>(rt: &R, outcome: &Result<Ending, RunFault>) -> ExitCode {
    if let Err(fault) = outcome {
        let _ = eprintln!(rt; "{fault}");
    }
    ExitCode::from(status_of(outcome))
}
