//! Plays a script, given on standard input, on the kernel and on the plain one, which searches its journal, and
//! compares what both answer, and what a picture shows of each task. Prints how many lines the script has and how many
//! events they came to; the exit status is 1 where the input is no script, or something differs.
#![tactic(auto)]

mod playing;
mod stages;
mod twins;

use ada_replay::input::read_input;
use ada_script::{Script, read};
use playing::play;
use twins::Twins;

fn main(rt: HostRuntime) -> anyhow::Result<()> {
    let text = read_input(rt.alloc(), &mut rt.reader())?;
    let script = read(rt.alloc(), &text)?;
    let events = compare(&rt, &script)?;
    println!(rt; "{} lines, {} events", script.lines().len(), events)?;
    Ok(())
}

// How many events the requests of a script come to on both.
fn compare(rt: &HostRuntime, script: &Script) -> anyhow::Result<u32> {
    let mut names = script.names()?;
    let mut twins = Twins::new(rt.alloc())?;
    play(&mut twins, &mut names, script)?;
    Ok(twins.events())
}
