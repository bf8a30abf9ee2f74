//! The calls that are tried.

use crate::boards::{try_offer, try_open};
use crate::crowds::{Crowd, CrowdCall};
use crate::halls::{HallCall, try_hall};
use crate::journals::Reserving;
use crate::kernels::{Making, Play};
use crate::lasting::{LastingCall, Living};
use crate::playing::{Playing, try_playing};
use crate::saying;
use crate::scenario::{EVENTS, LINES, Scene};
use crate::scripts::{Copying, Printed, Printing, Reading, Spelling};
use crate::tables::{TableCall, TableTrial};
use crate::trial::{Reach, Seen, go};
use std::alloc::Global;
use std::sync::Wait;
use std::thread::Threads;

/// A library call that takes memory.
#[derive(Clone, Copy, Debug, PartialEq, Eq)]
pub enum Call {
    KernelNew,
    KernelStep(Scene),
    /// A call of an entry, for which there is room in the journal, but not among the queued calls.
    KernelCall,
    TablesNew,
    AddTask,
    ReserveCall,
    JournalReserve,
    Read,
    ScriptNames,
    Words,
    WriteEvent,
    WriteRefusal,
    WriteShown,
    OpenBoard,
    Offer,
    HallNew,
    HallStep,
    HallSay,
    Playing(Playing),
    Lasting(LastingCall),
    Crowd(CrowdCall),
}

/// All of them.
pub const CALLS: [Call; 34] = [
    Call::KernelNew,
    Call::KernelStep(Scene::EachEvent),
    Call::KernelStep(Scene::Termination),
    Call::KernelStep(Scene::Quit),
    Call::KernelStep(Scene::SelfAbort),
    Call::KernelStep(Scene::Abort),
    Call::KernelCall,
    Call::TablesNew,
    Call::AddTask,
    Call::ReserveCall,
    Call::JournalReserve,
    Call::Read,
    Call::ScriptNames,
    Call::Words,
    Call::WriteEvent,
    Call::WriteRefusal,
    Call::WriteShown,
    Call::OpenBoard,
    Call::Offer,
    Call::HallNew,
    Call::HallStep,
    Call::HallSay,
    Call::Playing(Playing::Replay),
    Call::Playing(Playing::Run),
    Call::Playing(Playing::ReadAndRun),
    Call::Lasting(LastingCall::New),
    Call::Lasting(LastingCall::Create),
    Call::Lasting(LastingCall::DueTick),
    Call::Lasting(LastingCall::DueCreate),
    Call::Lasting(LastingCall::Compact),
    Call::Crowd(CrowdCall::First),
    Call::Crowd(CrowdCall::Later),
    Call::Crowd(CrowdCall::Again),
    Call::Crowd(CrowdCall::Tick),
];

/// How many tasks there may be before one is added in a trial of it.
const TASKS: usize = 9;

/// The requests of the queue at which there is no room among the queued calls: the first call, and the fifth.
const CALLS_WITHOUT_ROOM: [usize; 2] = [12, 16];

impl Call {
    /// Its name.
    pub fn name(self) -> &'static str {
        match self {
            Call::KernelNew => "Kernel::new",
            Call::KernelStep(scene) => step_name(scene),
            Call::KernelCall => step_name(Scene::Queue),
            Call::TablesNew => "Tables::new",
            Call::AddTask => "Tables::add_task",
            Call::ReserveCall => "Tables::reserve_call",
            Call::JournalReserve => "Journal::reserve",
            Call::Read => "read",
            Call::ScriptNames => "Script::names",
            Call::Words => "words",
            Call::WriteEvent => "write_event",
            Call::WriteRefusal => "write_refusal",
            Call::WriteShown => "write_shown",
            Call::OpenBoard => "open_board",
            Call::Offer => "BoardWriter::offer",
            Call::HallNew => "Hall::new",
            Call::HallStep => "Hall::step",
            Call::HallSay => "Hall::say",
            Call::Playing(call) => call.name(),
            Call::Lasting(call) => call.name(),
            Call::Crowd(call) => call.name(),
        }
    }

    /// How many trials of it there are: of each request, line or event, of a truth and of a number, of each number of
    /// tasks, of each script.
    pub fn numbers(self) -> usize {
        match self {
            Call::KernelStep(scene) => scene.requests(),
            Call::AddTask | Call::ReserveCall | Call::Lasting(LastingCall::Create) => TASKS,
            Call::Words => LINES,
            Call::WriteEvent => EVENTS,
            Call::WriteShown => 2,
            Call::KernelCall => CALLS_WITHOUT_ROOM.len(),
            Call::HallSay => saying::LINES,
            Call::Playing(_) => 2,
            _ => 1,
        }
    }

    /// Goes so far in a trial of it, and gives what was seen of a whole one.
    pub fn go<R: Threads + Wait + Sync + AllocGlobal>(
        self,
        rt: &R,
        number: usize,
        reach: Reach,
    ) -> anyhow::Result<Option<Seen>> {
        let alloc = rt.alloc();
        match self {
            Call::KernelNew => Ok(go(Making::prepare(alloc), Making::prepare(alloc), reach)),
            Call::KernelStep(scene) => step(alloc, scene, number, reach),
            Call::KernelCall => call_entry(alloc, number, reach),
            Call::TablesNew => Ok(table(alloc, TableCall::New, 1, reach)),
            Call::AddTask => Ok(table(alloc, TableCall::AddTask, number, reach)),
            Call::ReserveCall => Ok(table(alloc, TableCall::ReserveCall, number, reach)),
            Call::JournalReserve => Ok(go(
                Reserving::prepare(alloc),
                Reserving::prepare(alloc),
                reach,
            )),
            Call::Read => Ok(go(Reading::prepare(alloc), Reading::prepare(alloc), reach)),
            Call::ScriptNames => copy(alloc, reach),
            Call::Words => spell(alloc, number, reach),
            Call::WriteEvent => print(alloc, Printed::Event(number), reach),
            Call::WriteRefusal => print(alloc, Printed::Refusal, reach),
            Call::WriteShown => print(alloc, shown(number), reach),
            Call::OpenBoard => Ok(try_open(rt, reach)),
            Call::Offer => try_offer(rt, reach),
            Call::HallNew => try_hall(rt, HallCall::New, reach),
            Call::HallStep => try_hall(rt, HallCall::Step, reach),
            Call::HallSay => try_hall(rt, HallCall::Say(number), reach),
            Call::Playing(call) => try_playing(rt, call, number, reach),
            Call::Lasting(call) => Ok(lasting(alloc, call, number, reach)),
            Call::Crowd(call) => Ok(crowd(alloc, call, reach)),
        }
    }
}

fn step_name(scene: Scene) -> &'static str {
    match scene {
        Scene::EachEvent => "Kernel::step",
        Scene::Termination => "Kernel::step:termination",
        Scene::Quit => "Kernel::step:quit",
        Scene::SelfAbort => "Kernel::step:self_abort",
        Scene::Abort => "Kernel::step:abort",
        Scene::Queue => "Kernel::step:call",
    }
}

fn shown(number: usize) -> Printed {
    if number == 1 {
        Printed::Truth
    } else {
        Printed::Number
    }
}

fn step(alloc: Global, scene: Scene, number: usize, reach: Reach) -> anyhow::Result<Option<Seen>> {
    let trial = Play::prepare(alloc, scene, number)?;
    let twin = Play::prepare(alloc, scene, number)?;
    Ok(go(trial, twin, reach))
}

fn call_entry(alloc: Global, number: usize, reach: Reach) -> anyhow::Result<Option<Seen>> {
    let request = CALLS_WITHOUT_ROOM
        .get(number.saturating_sub(1))
        .copied()
        .unwrap_or(0);
    let trial = Play::before(alloc, Scene::Queue, request)?;
    let twin = Play::before(alloc, Scene::Queue, request)?;
    Ok(go(trial, twin, reach))
}

fn table(alloc: Global, call: TableCall, tasks: usize, reach: Reach) -> Option<Seen> {
    let trial = TableTrial::prepare(alloc, call, tasks);
    let twin = TableTrial::prepare(alloc, call, tasks);
    go(trial, twin, reach)
}

fn lasting(alloc: Global, call: LastingCall, tasks: usize, reach: Reach) -> Option<Seen> {
    let trial = Living::prepare(alloc, call, tasks);
    let twin = Living::prepare(alloc, call, tasks);
    go(trial, twin, reach)
}

fn crowd(alloc: Global, call: CrowdCall, reach: Reach) -> Option<Seen> {
    let trial = Crowd::prepare(alloc, call);
    let twin = Crowd::prepare(alloc, call);
    go(trial, twin, reach)
}

fn copy(alloc: Global, reach: Reach) -> anyhow::Result<Option<Seen>> {
    let trial = Copying::prepare(alloc)?;
    let twin = Copying::prepare(alloc)?;
    Ok(go(trial, twin, reach))
}

fn spell(alloc: Global, number: usize, reach: Reach) -> anyhow::Result<Option<Seen>> {
    let trial = Spelling::prepare(alloc, number)?;
    let twin = Spelling::prepare(alloc, number)?;
    Ok(go(trial, twin, reach))
}

fn print(alloc: Global, printed: Printed, reach: Reach) -> anyhow::Result<Option<Seen>> {
    let trial = Printing::prepare(alloc, printed)?;
    let twin = Printing::prepare(alloc, printed)?;
    Ok(go(trial, twin, reach))
}
