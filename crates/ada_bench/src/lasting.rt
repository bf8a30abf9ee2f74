//! A kernel that lives on: its answers beside those of one that keeps everything, and the making of a shorter journal.

use crate::jobs::{Plan, Stepping};
use crate::kernels::Beside;
use crate::report::{print_head, print_row};
use crate::turns::{Job, Turns, measure};
use crate::works::Work;
use ada_events::{Choice, Choices, Entry, Families, Family, Patience, Tail};
use ada_kernel::Kernel;
use ada_lasting::{LastingMaster, LastingRequest, LastingTasks, LongKernel};
use std::time::{Duration, Instant};

/// The number of events from which on the present journal is made shorter.
const THRESHOLD: u32 = 4096;

/// How many rendezvous there are, if nothing else is asked for: about as many as a kernel that keeps everything has
/// room for.
pub const ROUNDS: usize = 16_000;

/// How many tasks live beside the main program.
const FEW: u16 = 20;

/// The most of them that leave room for the two helpers of a shorter journal.
const MANY: u16 = 253;

/// How many rendezvous there are before a shorter journal is made.
const BEFORE: usize = 500;

/// The requests of a rendezvous.
const REQUESTS: u64 = 3;

const ENTRY: Entry = Entry {
    family: 0,
    index: 0,
};

/// Rendezvous between tasks 1 and 2, one after another, where so many tasks live beside the main program.
#[derive(Clone, Copy, Debug)]
struct Living {
    rounds: usize,
    tasks: u16,
}

impl Living {
    /// The same of a kernel that keeps everything.
    fn keeping(self) -> Beside {
        Beside {
            work: Work::PingPong,
            size: self.rounds,
            idle: self.tasks.saturating_sub(2),
        }
    }

    // Makes the kernel and its tasks.
    fn begin(self, rt: &HostRuntime, threshold: u32) -> anyhow::Result<LongKernel> {
        let mut kernel = LongKernel::new(rt.alloc(), threshold)?;
        let mut tasks = LastingTasks::new();
        for before in 0..self.tasks {
            kernel.step(LastingRequest::Create {
                by: 0,
                master: LastingMaster::Body(0),
                families: Families::from_slice(&[Family { low: 0, high: 0 }]),
            })?;
            if !tasks.is_full() {
                tasks.push(u64::from(before) + 1);
            }
        }
        kernel.step(LastingRequest::Activate { by: 0, tasks })?;
        for before in 0..self.tasks {
            let by = u64::from(before) + 1;
            kernel.step(LastingRequest::Elaborated { by, ok: true })?;
        }
        Ok(kernel)
    }

    fn meet(self, kernel: &mut LongKernel) {
        for _ in 0..self.rounds {
            let _ = kernel.step(LastingRequest::Call {
                by: 1,
                callee: 2,
                entry: ENTRY,
                patience: Patience::Simple,
            });
            let _ = kernel.step(LastingRequest::Wait {
                by: 2,
                choices: Choices::from_slice(&[Choice {
                    guard: true,
                    entry: ENTRY,
                }]),
                tail: Tail::Nothing,
                pick: 0,
            });
            let _ = kernel.step(LastingRequest::End {
                by: 2,
                raised: false,
            });
        }
    }
}

/// The rendezvous of a kernel that lives on.
impl Job<HostRuntime> for Living {
    fn turn(&mut self, rt: &HostRuntime) -> anyhow::Result<Duration> {
        let mut kernel = self.begin(rt, THRESHOLD)?;
        let start = Instant::now(rt)?;
        self.meet(&mut kernel);
        Ok(start.elapsed(rt)?)
    }
}

/// The making of a shorter journal after them.
#[derive(Clone, Copy, Debug)]
struct Shortening(Living);

impl Job<HostRuntime> for Shortening {
    fn turn(&mut self, rt: &HostRuntime) -> anyhow::Result<Duration> {
        let mut kernel = self.0.begin(rt, u32::MAX)?;
        self.0.meet(&mut kernel);
        let start = Instant::now(rt)?;
        kernel.compact()?;
        Ok(start.elapsed(rt)?)
    }
}

/// The making of a kernel and its tasks alone, as the floor of a shorter journal.
#[derive(Clone, Copy, Debug)]
struct Remaking(Living);

impl Job<HostRuntime> for Remaking {
    fn turn(&mut self, rt: &HostRuntime) -> anyhow::Result<Duration> {
        let start = Instant::now(rt)?;
        let mut kernel = Kernel::new(rt.alloc())?;
        self.0.keeping().prepare(&mut kernel);
        Ok(start.elapsed(rt)?)
    }
}

/// Makes so many rendezvous, and prints how many events they came to, and how many are kept.
pub fn try_lasting(rt: &HostRuntime, rounds: usize) -> anyhow::Result<()> {
    let living = Living { rounds, tasks: FEW };
    let mut kernel = living.begin(rt, THRESHOLD)?;
    living.meet(&mut kernel);
    let at = kernel.step(LastingRequest::Tick { now: 0 })?;
    kernel.compact()?;
    println!(rt; "lasting: {at} events, {} kept", kernel.kept())?;
    Ok(())
}

/// Measures so many rendezvous of a kernel that lives on beside those of one that keeps everything, and the making of
/// a shorter journal beside that of as many tasks.
pub fn measure_lasting(rt: &HostRuntime, rounds: usize) -> anyhow::Result<()> {
    println!(rt; "{rounds} rendezvous beside {FEW} tasks, at threshold {THRESHOLD}")?;
    print_head(rt)?;
    let mut living = Living { rounds, tasks: FEW };
    let plan = living.keeping();
    let keeping = measure(rt, &mut Stepping { plan: &plan })?;
    let lasting = measure(rt, &mut living)?;
    print_row(rt, "lasting", lasting, keeping)?;
    print_request(rt, "lasting", lasting, rounds)?;
    print_request(rt, "keeping", keeping, rounds)?;
    measure_shortening(rt, FEW)?;
    measure_shortening(rt, MANY)
}

// What a request took, in nanoseconds.
fn print_request(rt: &HostRuntime, name: &str, taken: Turns, rounds: usize) -> anyhow::Result<()> {
    let requests = (rounds as u64).saturating_mul(REQUESTS).max(1);
    println!(rt; "  {name}: {} ns a request", taken.best / requests)?;
    Ok(())
}

fn measure_shortening(rt: &HostRuntime, tasks: u16) -> anyhow::Result<()> {
    println!(rt; "a shorter journal, with {tasks} tasks")?;
    print_head(rt)?;
    let living = Living {
        rounds: BEFORE,
        tasks,
    };
    let floor = measure(rt, &mut Remaking(living))?;
    let taken = measure(rt, &mut Shortening(living))?;
    print_row(rt, "compact", taken, floor)?;
    Ok(())
}
