//! Random runs.

use crate::both::Both;
use crate::runs::{ALL_KINDS, Found, Run, Sum};
use ada_lasting::LastingRequest;
use anyhow::anyhow;

/// Plays these runs, and prints what came up. Fails at the first difference, which it tells with the number of the run
/// and of the request.
pub fn play_all(rt: &HostRuntime, first: u64, runs: u64, length: u64) -> anyhow::Result<Sum> {
    let mut sum = Sum::default();
    for offset in 0..runs {
        let number = first.wrapping_add(offset);
        let run = Run::new(number, length);
        if let Err(Found { request, unlike }) = run.play(rt.alloc(), &mut sum) {
            return Err(anyhow!("run {number}, request {request}: {unlike}"));
        }
    }
    print_sum(rt, &sum)?;
    Ok(sum)
}

/// Fails unless every kind of event came up, and some tasks were given up and some kept: runs that bring up less are a
/// sham.
pub fn want_much(sum: &Sum) -> anyhow::Result<()> {
    let is_given_up = sum.given_up > 100 && sum.tasks > sum.given_up;
    if sum.kinds == ALL_KINDS && sum.accepted > 2000 && is_given_up {
        Ok(())
    } else {
        Err(anyhow!("too little came up: {sum:?}"))
    }
}

fn print_sum(rt: &HostRuntime, sum: &Sum) -> anyhow::Result<()> {
    println!(rt;
        "{} runs: {} requests, {} accepted, {} events, {} tasks, {} of them given up, \
         {} compactions without room",
        sum.runs, sum.asked, sum.accepted, sum.events, sum.tasks, sum.given_up, sum.crowded
    )?;
    Ok(())
}

/// Prints what a run asks, and whether it is accepted, up to a difference or to its end.
pub fn play_shown(rt: &HostRuntime, number: u64, length: u64) -> anyhow::Result<()> {
    let run = Run::new(number, length);
    println!(rt;
        "up to {} requests, threshold {}",
        run.length, run.threshold
    )?;
    let mut both = Both::new(rt.alloc(), run.threshold)?;
    show_all(rt, &run, &mut both)
}

fn show_all(rt: &HostRuntime, run: &Run, both: &mut Both) -> anyhow::Result<()> {
    for number in 0..run.length {
        show_request(rt, number, &run.request(both, number))?;
        if !show_answer(rt, run, both, number)? {
            break;
        }
    }
    Ok(())
}

fn show_request(rt: &HostRuntime, number: u64, request: &LastingRequest) -> anyhow::Result<()> {
    println!(rt; "{number}: {request:?}")?;
    Ok(())
}

// Makes a request of the run, and prints what comes of it. Whether the kernels did the same.
fn show_answer(rt: &HostRuntime, run: &Run, both: &mut Both, number: u64) -> anyhow::Result<bool> {
    match run.play_one(both, number) {
        Ok(accepted) => println!(rt; "  {accepted}, {:?}", both.present())?,
        Err(unlike) => {
            println!(rt; "  differs: {unlike}")?;
            return Ok(false);
        }
    }
    Ok(true)
}
