//! A request to a kernel that lives on as one to a kernel that keeps everything: there the names of tasks and blocks
//! are the same numbers, as long as there are no more than it has room for.

use ada_events::{Choices, Families, Master, Pauses, Request, Tail, TaskNo, Tasks};
use ada_lasting::{LastingMaster, LastingRequest, LastingTasks};

/// The task with a number, or nobody.
pub fn plain_task(number: u64) -> TaskNo {
    TaskNo(if number < 65_535 {
        number as u16
    } else {
        u16::MAX
    })
}

/// The position with a number, or none.
pub fn plain_position(number: u64) -> u32 {
    if number <= u64::from(u32::MAX) {
        number as u32
    } else {
        0
    }
}

pub fn plain_master(master: LastingMaster) -> Master {
    match master {
        LastingMaster::Body(task) => Master::Body(plain_task(task)),
        LastingMaster::Block(position) => Master::Block(plain_position(position)),
    }
}

fn plain_tasks(tasks: &LastingTasks) -> Tasks {
    let mut list = Tasks::new();
    for task in tasks.as_slice() {
        if !list.is_full() {
            list.push(plain_task(*task));
        }
    }
    list
}

fn plain_tail(tail: &Tail) -> Tail {
    match tail {
        Tail::Nothing => Tail::Nothing,
        Tail::Otherwise => Tail::Otherwise,
        Tail::Delays(pauses) => Tail::Delays(Pauses::from_slice(pauses.as_slice())),
        Tail::Terminate(guard) => Tail::Terminate(*guard),
    }
}

/// The same request, with its names as they are.
pub fn plain_request(request: &LastingRequest) -> Request {
    match request {
        LastingRequest::Create {
            by,
            master,
            families,
        } => Request::Create {
            by: plain_task(*by),
            master: plain_master(*master),
            families: Families::from_slice(families.as_slice()),
        },
        LastingRequest::Call {
            by,
            callee,
            entry,
            patience,
        } => Request::Call {
            by: plain_task(*by),
            callee: plain_task(*callee),
            entry: *entry,
            patience: *patience,
        },
        LastingRequest::Wait {
            by,
            choices,
            tail,
            pick,
        } => Request::Wait {
            by: plain_task(*by),
            choices: Choices::from_slice(choices.as_slice()),
            tail: plain_tail(tail),
            pick: *pick,
        },
        _ => plain_short_request(request),
    }
}

fn plain_short_request(request: &LastingRequest) -> Request {
    match request {
        LastingRequest::Open { by } => Request::Open {
            by: plain_task(*by),
        },
        LastingRequest::Activate { by, tasks } => Request::Activate {
            by: plain_task(*by),
            tasks: plain_tasks(tasks),
        },
        LastingRequest::Elaborated { by, ok } => Request::Elaborated {
            by: plain_task(*by),
            ok: *ok,
        },
        LastingRequest::Delay { by, duration } => Request::Delay {
            by: plain_task(*by),
            duration: *duration,
        },
        LastingRequest::End { by, raised } => Request::End {
            by: plain_task(*by),
            raised: *raised,
        },
        LastingRequest::Close { by } => Request::Close {
            by: plain_task(*by),
        },
        LastingRequest::Complete { by } => Request::Complete {
            by: plain_task(*by),
        },
        LastingRequest::Abort { by, tasks } => Request::Abort {
            by: plain_task(*by),
            tasks: plain_tasks(tasks),
        },
        LastingRequest::Tick { now } => Request::Tick { now: *now },
        _ => Request::Tick { now: i64::MIN },
    }
}

/// The task that is called, or on whose body a new one depends.
pub fn other(request: &LastingRequest) -> Option<u64> {
    match request {
        LastingRequest::Call { callee, .. } => Some(*callee),
        LastingRequest::Create {
            master: LastingMaster::Body(task),
            ..
        } => Some(*task),
        _ => None,
    }
}

/// The tasks that a request lists.
pub fn listed(request: &LastingRequest) -> &[u64] {
    match request {
        LastingRequest::Activate { tasks, .. } => tasks.as_slice(),
        LastingRequest::Abort { tasks, .. } => tasks.as_slice(),
        _ => &[],
    }
}
