//! The words of the command line, and what the program prints.

use crate::trial::{Answer, Reach, Seen};
use anyhow::anyhow;
use std::io::Print;

/// What the program is to do.
#[derive(Clone, Copy, Debug, PartialEq, Eq)]
pub enum Order<'a> {
    /// To make each trial whole, and name those that came out as promised.
    All,
    /// To go so far in the trial of this name and number, and print what a whole one answered.
    One {
        reach: Reach,
        name: &'a str,
        number: usize,
    },
}

/// What the words of the command line order, the program's name first: nothing more is all, and else `before`, `call`
/// or `whole`, a name and a number.
pub fn order_of(words: &[String]) -> anyhow::Result<Order<'_>> {
    match words {
        [_, reach, name, number] => Ok(Order::One {
            reach: reach_of(reach.as_str())?,
            name: name.as_str(),
            number: number.as_str().parse()?,
        }),
        _ => Ok(Order::All),
    }
}

fn reach_of(word: &str) -> anyhow::Result<Reach> {
    match word {
        "before" => Ok(Reach::Before),
        "call" => Ok(Reach::Call),
        "whole" => Ok(Reach::Whole),
        _ => Err(anyhow!("before, call or whole")),
    }
}

/// Prints what was answered, where all is as promised; else fails.
pub fn report<R: Print>(rt: &R, seen: Seen) -> anyhow::Result<()> {
    check(seen)?;
    println!(rt; "{}", name_of(seen.answer))?;
    Ok(())
}

fn name_of(answer: Answer) -> &'static str {
    match answer {
        Answer::Done => "done",
        Answer::Behind => "behind",
        Answer::Refused => "refused",
        Answer::NoThread => "thread refused",
        Answer::Failed => "failed",
    }
}

/// Fails where anything isn't as promised.
pub fn check(seen: Seen) -> anyhow::Result<()> {
    if seen.answer == Answer::Failed {
        return Err(anyhow!("the call failed"));
    }
    if !seen.unchanged {
        return Err(anyhow!("a refused call left a change"));
    }
    if !seen.again {
        return Err(anyhow!("what followed was not as if nothing had been refused"));
    }
    Ok(())
}
