//! A program that could run for ever: a server, and clients that come and go. Its kernel lives on: its journal has no
//! end, and memory holds a small part of it.
#![tactic(auto)]

use ada_events::{Choice, Choices, Entry, Families, Family, Patience, Tail};
use ada_lasting::{LastingMaster, LastingRequest, LastingTasks, LongKernel, NotDone};
use std::env;

/// The number of events from which on the kernel makes its journal shorter.
const THRESHOLD: u32 = 1000;

/// How many clients come, if nothing else is asked for. A `Kernel` has room for 254 of them.
const CLIENTS: u64 = 13_000;

const MAIN: u64 = 0;

/// The server's entry.
const SERVICE: Entry = Entry {
    family: 0,
    index: 0,
};

/// The kernel of the program.
#[derive(Drop)]
struct Service {
    kernel: LongKernel,
    server: u64,
    /// The most events that it kept at a time.
    most: u32,
}

impl Service {
    fn ask(&mut self, request: LastingRequest) -> Result<u64, NotDone> {
        let position = self.kernel.step(request)?;
        self.most = self.most.max(self.kernel.kept());
        Ok(position)
    }

    // Creates a task and activates it: four events.
    fn start(&mut self, master: LastingMaster, families: Families) -> Result<u64, NotDone> {
        let task = self.kernel.tasks();
        self.ask(LastingRequest::Create {
            by: MAIN,
            master,
            families,
        })?;
        let tasks = LastingTasks::from_slice(&[task]);
        self.ask(LastingRequest::Activate { by: MAIN, tasks })?;
        self.ask(LastingRequest::Elaborated { by: task, ok: true })?;
        Ok(task)
    }

    fn accept(&mut self) -> Result<(), NotDone> {
        let choice = Choice {
            guard: true,
            entry: SERVICE,
        };
        self.ask(LastingRequest::Wait {
            by: self.server,
            choices: Choices::from_slice(&[choice]),
            tail: Tail::Nothing,
            pick: 0,
        })?;
        Ok(())
    }

    // The server is created, and waits for its first call: five events.
    fn begin(&mut self) -> Result<(), NotDone> {
        let single = Families::from_slice(&[Family { low: 0, high: 0 }]);
        self.server = self.start(LastingMaster::Body(MAIN), single)?;
        self.accept()
    }

    // A client comes, calls the server and goes: 13 events. Its name is given up some time after its block is left.
    fn serve_client(&mut self) -> Result<(), NotDone> {
        let block = self.ask(LastingRequest::Open { by: MAIN })?;
        let client = self.start(LastingMaster::Block(block), Families::new())?;
        self.ask(LastingRequest::Call {
            by: client,
            callee: self.server,
            entry: SERVICE,
            patience: Patience::Simple,
        })?;
        self.ask(LastingRequest::End {
            by: self.server,
            raised: false,
        })?;
        self.accept()?;
        self.ask(LastingRequest::Complete { by: client })?;
        self.ask(LastingRequest::Close { by: MAIN })?;
        Ok(())
    }

    fn alive(&self) -> usize {
        let tasks = 0..self.kernel.tasks();
        tasks
            .filter(|task| self.kernel.terminated(*task) == Some(false))
            .count()
    }

    fn print(&self, rt: &HostRuntime) -> anyhow::Result<()> {
        println!(rt;
            "{} events, {} tasks",
            self.kernel.length(),
            self.kernel.tasks()
        )?;
        println!(rt; "{} tasks alive", self.alive())?;
        println!(rt; "{} events kept, {} at most", self.kernel.kept(), self.most)?;
        Ok(())
    }
}

/// Serves as many clients as its word says, and prints what they came to.
fn main(rt: HostRuntime) -> anyhow::Result<()> {
    let words: Vec<String> = env::args(&rt)?.collect(rt.alloc())?;
    let clients = match words.get(1) {
        Some(word) => word.as_str().parse()?,
        None => CLIENTS,
    };
    let mut service = Service {
        kernel: LongKernel::new(rt.alloc(), THRESHOLD)?,
        server: MAIN,
        most: 0,
    };
    service.begin()?;
    for _ in 0..clients {
        service.serve_client()?;
    }
    service.kernel.compact()?;
    service.print(&rt)
}
