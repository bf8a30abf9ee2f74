//! A life of generations: the main program opens a block, makes workers that depend on it, who meet for a while, and
//! leaves the block when they are terminated.

use ada_events::{Choice, Choices, Entry, Families, Family, Patience, Tail};
use ada_lasting::{LastingMaster, LastingRequest, LastingTasks, LongKernel, NotDone};
use std::alloc::Global;

const THRESHOLD: u32 = 4096;

const MAIN: u64 = 0;

const ENTRY: Entry = Entry {
    family: 0,
    index: 0,
};

/// How many workers a generation has, most of the time and at times.
const FEW: u64 = 50;

const MANY: u64 = 120;

/// How many rendezvous there are in a generation.
const ROUNDS: u64 = 1600;

/// What a life came to.
#[derive(Clone, Copy, Debug, Default)]
pub struct Life {
    pub requests: u64,
    pub events: u64,
    pub tasks: u64,
    /// The most events and tasks that the present journal had after a generation's rendezvous.
    pub most_events: u32,
    pub most_tasks: u16,
}

#[derive(Drop)]
struct Living {
    kernel: LongKernel,
    life: Life,
}

/// Lives so many generations.
pub fn live(alloc: Global, generations: u64) -> anyhow::Result<Life> {
    let mut living = Living {
        kernel: LongKernel::new(alloc, THRESHOLD)?,
        life: Life::default(),
    };
    for number in 0..generations {
        living.generation(if number % 16 == 15 { MANY } else { FEW })?;
    }
    let Living { kernel, mut life } = living;
    life.tasks = kernel.tasks();
    Ok(life)
}

impl Living {
    fn ask(&mut self, request: LastingRequest) -> Result<u64, NotDone> {
        let at = self.kernel.step(request)?;
        self.life.requests = self.life.requests.wrapping_add(1);
        self.life.events = at;
        Ok(at)
    }

    fn generation(&mut self, workers: u64) -> Result<(), NotDone> {
        let block = self.ask(LastingRequest::Open { by: MAIN })?;
        let first = self.kernel.tasks();
        self.make(block, first, workers)?;
        for round in 0..ROUNDS {
            let server = first.wrapping_add(round % workers.max(1));
            let client = first.wrapping_add(round.wrapping_add(1) % workers.max(1));
            self.meet(client, server)?;
        }
        self.measure();
        for offset in 0..workers {
            let by = first.wrapping_add(offset);
            self.ask(LastingRequest::Complete { by })?;
        }
        self.ask(LastingRequest::Close { by: MAIN })?;
        Ok(())
    }

    fn measure(&mut self) {
        self.life.most_events = self.life.most_events.max(self.kernel.kept());
        self.life.most_tasks = self.life.most_tasks.max(self.kernel.kept_tasks());
    }

    fn make(&mut self, block: u64, first: u64, workers: u64) -> Result<(), NotDone> {
        let mut tasks = LastingTasks::new();
        for offset in 0..workers {
            self.ask(LastingRequest::Create {
                by: MAIN,
                master: LastingMaster::Block(block),
                families: Families::from_slice(&[Family { low: 0, high: 0 }]),
            })?;
            if !tasks.is_full() {
                tasks.push(first.wrapping_add(offset));
            }
        }
        self.ask(LastingRequest::Activate { by: MAIN, tasks })?;
        for offset in 0..workers {
            let by = first.wrapping_add(offset);
            self.ask(LastingRequest::Elaborated { by, ok: true })?;
        }
        Ok(())
    }

    // A rendezvous: the call, its acceptance, and its end.
    fn meet(&mut self, client: u64, server: u64) -> Result<(), NotDone> {
        self.ask(LastingRequest::Call {
            by: client,
            callee: server,
            entry: ENTRY,
            patience: Patience::Simple,
        })?;
        self.ask(LastingRequest::Wait {
            by: server,
            choices: Choices::from_slice(&[Choice {
                guard: true,
                entry: ENTRY,
            }]),
            tail: Tail::Nothing,
            pick: 0,
        })?;
        self.ask(LastingRequest::End {
            by: server,
            raised: false,
        })?;
        Ok(())
    }
}
