//! The table: a line for each thing that is measured.

use crate::turns::Turns;
use std::{fs, io};

/// Prints what something took, and its floor: first, best and median turn, and the ratio of the best
/// turns.
pub fn print_row<R: Print>(rt: &R, name: &str, taken: Turns, floor: Turns) -> io::Result<()> {
    print!(rt; "  {name:<8}")?;
    for time in [
        taken.first,
        taken.best,
        taken.median,
        floor.first,
        floor.best,
    ] {
        print!(rt; " {:>10}.{}", time / 1000, time % 1000 / 100)?;
    }
    let hundredths = taken.best.saturating_mul(100) / floor.best.max(1);
    println!(rt; " {:>9}.{:02}", hundredths / 100, hundredths % 100)
}

/// The heads of the columns. Times are in microseconds.
pub fn print_head<R: Print>(rt: &R) -> io::Result<()> {
    print!(rt; "  {:<8}", "us")?;
    for head in [
        "first",
        "best",
        "median",
        "floor 1st",
        "floor best",
        "ratio",
    ] {
        print!(rt; " {head:>12}")?;
    }
    println!(rt; "")
}

/// Prints the most memory that this process had so far, in KB, and its page faults, as the system
/// counts them.
pub fn print_memory(rt: &HostRuntime) -> anyhow::Result<()> {
    let status = fs::read_to_string(rt, "/proc/self/status")?;
    for line in status.lines() {
        if line.starts_with("VmHWM") {
            println!(rt; "  {line}")?;
        }
    }
    let counts = fs::read_to_string(rt, "/proc/self/stat")?;
    let faults = counts.split_whitespace().nth(9).unwrap_or("");
    println!(rt; "  page faults {faults}")?;
    Ok(())
}
