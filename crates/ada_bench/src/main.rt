//! Measures how long the parts of adatask take, each beside a floor that is measured in the same run: the
//! same bytes read and cut into words, the same requests made, the same events made and kept, and the same
//! text made and written, by plain loops; the same numbers read from a table; journals made and dropped; and boards
//! under a lock.
#![tactic(auto)]

mod album;
mod boards;
mod floors;
mod jobs;
mod kernels;
mod lasting;
mod locked;
mod published;
mod queries;
mod race;
mod report;
mod scripted;
mod scripts;
mod sights;
mod sink;
mod turns;
mod workloads;
mod works;

use boards::{measure_boards, try_boards};
use lasting::{ROUNDS, measure_lasting, try_lasting};
use queries::Query;
use scripts::Kind;
use std::alloc::{AllocError, Global};
use std::env;
use workloads::{
    measure_making, measure_query, measure_script, measure_work, try_query, try_script, try_work,
};
use works::Work;

/// The lines of the longest script.
const LINES: usize = 4096;

/// How often a question is asked, and how many kernels are made, where nothing else is asked for.
const TIMES: u64 = 1000;

/// How many idle tasks there are, where there are any.
const IDLE: u16 = 250;

/// How many bytes a block may have that the allocator keeps when it is freed: more than any that is measured.
const KEPT: usize = 1 << 24;

/// The name of the making of kernels.
const MAKING: &str = "kernels";

/// The name of the reads and publications of boards.
const BOARDS: &str = "board";

/// The name of what is measured of a kernel that lives on.
const LASTING: &str = "lasting";

/// Without a word, prints the names of what can be measured. With such a name, and perhaps a number of
/// lines, rounds, tasks, events or times, measures it and prints the table. With `small`, tries all on
/// little input, and prints how much each came to.
fn main(rt: HostRuntime) -> anyhow::Result<()> {
    let words: Vec<String> = env::args(&rt)?.collect(rt.alloc())?;
    match words.get(1) {
        None => print_names(&rt),
        Some(word) if word.as_str() == "small" => {
            try_all(&rt)?;
            try_boards(&rt)
        }
        Some(word) if word.as_str() == BOARDS => measure_boards(&rt),
        Some(word) => {
            let size = words.get(2).and_then(|size| size.as_str().parse().ok());
            keep_memory(rt.alloc())?;
            measure_named(&rt, word.as_str(), size)
        }
    }
}

/// Has the allocator keep what is freed from now on: it gives a block back to the system where that is larger than the
/// largest that was freed before.
fn keep_memory(alloc: Global) -> Result<(), AllocError> {
    let mut block: Vec<u8> = Vec::new(alloc);
    block.reserve(KEPT)
}

fn print_names(rt: &HostRuntime) -> anyhow::Result<()> {
    for kind in Kind::ALL {
        println!(rt; "{}", kind.name())?;
    }
    for work in Work::ALL {
        println!(rt; "{}", work.name())?;
    }
    for query in Query::ALL {
        println!(rt; "{}", query.name())?;
    }
    println!(rt; "{}", MAKING)?;
    println!(rt; "{}", LASTING)?;
    println!(rt; "{}", BOARDS)?;
    Ok(())
}

fn try_all(rt: &HostRuntime) -> anyhow::Result<()> {
    for kind in Kind::ALL {
        try_script(rt, kind, 20)?;
    }
    for work in Work::ALL {
        try_work(rt, work, 3)?;
    }
    for query in Query::ALL {
        try_query(rt, query, 3)?;
    }
    try_lasting(rt, 5)?;
    Ok(())
}

/// Measures what has that name, of a size that is given or usual.
fn measure_named(rt: &HostRuntime, name: &str, size: Option<usize>) -> anyhow::Result<()> {
    for kind in Kind::ALL {
        if kind.name() == name {
            measure_script(rt, kind, size.unwrap_or(LINES))?;
        }
    }
    for work in Work::ALL {
        if work.name() == name {
            let size = size.unwrap_or(work.usual_size());
            measure_work(rt, work, size, 0)?;
            measure_work(rt, work, size, IDLE)?;
        }
    }
    let times = size.map_or(TIMES, |size| size as u64);
    for query in Query::ALL {
        if query.name() == name {
            measure_query(rt, query, times, 0)?;
            measure_query(rt, query, times, IDLE)?;
        }
    }
    if name == MAKING {
        measure_making(rt, times)?;
    }
    if name == LASTING {
        measure_lasting(rt, size.unwrap_or(ROUNDS))?;
    }
    Ok(())
}
