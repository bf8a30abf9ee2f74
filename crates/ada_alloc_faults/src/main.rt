//! Makes each call of the kernel, the one that lives on, the tables, the journal, scripts, printing, the board, the
//! hall, replays and runs that takes memory, for `tools/try_refusals`, which refuses each growth of it in turn: the
//! call answers want of memory or of a thread, and leaves all that can be asked as it was, or a beginning of its
//! output; and made again it answers as if nothing had been refused; or a hall's step stands, and what is published is
//! behind until the next one; or a request to the kernel that lives on stands, and its present journal is made shorter
//! later.
#![tactic(auto)]

mod boards;
mod calls;
mod crowds;
mod halls;
mod journals;
mod kernels;
mod lasting;
mod orders;
mod playing;
mod saying;
mod scenario;
mod scripts;
mod stepping;
mod tables;
mod trial;

use calls::{CALLS, Call};
use orders::{Order, check, order_of, report};
use std::env;
use std::io::Print;
use std::sync::Wait;
use std::thread::Threads;
use trial::Reach;

/// Without a word, makes each trial, and prints its name and number where it came out as promised. With the words
/// `before`, `call` or `whole`, a name and a number, goes so far in that trial, and prints what a whole one answered.
/// Fails where anything isn't as promised.
fn main(rt: HostRuntime) -> anyhow::Result<()> {
    let words: Vec<String> = env::args(&rt)?.collect(rt.alloc())?;
    match order_of(&words)? {
        Order::All => try_all(&rt),
        Order::One {
            reach,
            name,
            number,
        } => try_one(&rt, reach, name, number),
    }
}

fn try_all<R: Threads + Wait + Sync + AllocGlobal + Print>(rt: &R) -> anyhow::Result<()> {
    for call in CALLS {
        try_each(rt, call)?;
    }
    Ok(())
}

// Makes each trial of a call.
fn try_each<R: Threads + Wait + Sync + AllocGlobal + Print>(
    rt: &R,
    call: Call,
) -> anyhow::Result<()> {
    for before in 0..call.numbers() {
        let number = before + 1;
        if let Some(seen) = call.go(rt, number, Reach::Whole)? {
            check(seen)?;
            println!(rt; "{} {number}", call.name())?;
        }
    }
    Ok(())
}

// Goes so far in a trial of the call of this name.
fn try_one<R: Threads + Wait + Sync + AllocGlobal + Print>(
    rt: &R,
    reach: Reach,
    name: &str,
    number: usize,
) -> anyhow::Result<()> {
    for call in CALLS {
        if call.name() == name {
            if let Some(seen) = call.go(rt, number, reach)? {
                report(rt, seen)?;
            }
        }
    }
    Ok(())
}
