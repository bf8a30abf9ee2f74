//! Which subprogram calls which.

use ada_text::tree::DeclarationId;
use ada_text::{Cause, Trouble};
use std::alloc::{AllocError, Global};

/// More steps than a walk over all calls takes.
const MOST_STEPS: u32 = 1 << 24;

/// How far a walk came with a subprogram.
#[derive(Clone, Copy, PartialEq, Eq)]
enum Progress {
    New,
    /// The calls in it are being followed.
    Begun,
    Done,
}

/// What is known of a subprogram.
#[derive(Clone, Copy)]
struct Caller {
    progress: Progress,
    is_function: bool,
    /// Whether its task may wait in it, or abort another one.
    requests: bool,
    /// Its last call, by its index.
    last: Option<usize>,
}

/// A call in a subprogram, and where it stands.
#[derive(Clone, Copy)]
struct Call {
    caller: usize,
    callee: usize,
    at: u32,
    /// The call in the same subprogram before it, by its index.
    earlier: Option<usize>,
}

/// A subprogram whose calls are being followed.
#[derive(Clone, Copy)]
struct Visit {
    subprogram: usize,
    /// The call that led to it.
    by: Option<Call>,
    /// The next call to be followed.
    next: Option<usize>,
}

/// The calls of subprograms in one another.
#[derive(Drop)]
pub struct CallGraph {
    /// By the number of their first declaration; other declarations call nothing.
    callers: Vec<Caller>,
    calls: Vec<Call>,
    /// What is being followed, from the outermost call on.
    path: Vec<Visit>,
}

impl CallGraph {
    /// No calls among so many declarations.
    pub fn new(alloc: Global, declarations: usize) -> Result<Self, AllocError> {
        let caller = Caller {
            progress: Progress::New,
            is_function: false,
            requests: false,
            last: None,
        };
        Ok(CallGraph {
            callers: vec![in alloc; caller; declarations]?,
            calls: Vec::new(alloc),
            path: Vec::new(alloc),
        })
    }

    /// What is known of a subprogram.
    fn caller(&self, subprogram: usize) -> Option<Caller> {
        self.callers.get(subprogram).copied()
    }

    /// Notes that a subprogram is a function.
    pub fn note_function(&mut self, id: DeclarationId) {
        if let Some(caller) = self.callers.get_mut(id.0 as usize) {
            caller.is_function = true;
        }
    }

    /// Notes that the task may wait in a subprogram, or aborts another one.
    pub fn note_request(&mut self, id: DeclarationId) {
        self.mark_requesting(id.0 as usize);
    }

    /// Notes that of the subprogram with this number.
    fn mark_requesting(&mut self, subprogram: usize) {
        if let Some(caller) = self.callers.get_mut(subprogram) {
            caller.requests = true;
        }
    }

    /// Notes how far the walk came with a subprogram.
    fn mark(&mut self, subprogram: usize, progress: Progress) {
        if let Some(caller) = self.callers.get_mut(subprogram) {
            caller.progress = progress;
        }
    }

    /// Adds a call of a subprogram in another one.
    pub fn add(
        &mut self,
        caller: DeclarationId,
        callee: DeclarationId,
        at: u32,
    ) -> Result<(), Trouble> {
        let index = self.calls.len();
        let Some(known) = self.callers.get_mut(caller.0 as usize) else {
            return Ok(());
        };
        let earlier = known.last;
        known.last = Some(index);
        self.calls.push(Call {
            caller: caller.0 as usize,
            callee: callee.0 as usize,
            at,
            earlier,
        })?;
        Ok(())
    }

    /// Begins to follow the calls in a subprogram, unless that was done.
    fn begin(&mut self, subprogram: usize, by: Option<Call>) -> Result<(), Trouble> {
        let Some(caller) = self.caller(subprogram) else {
            return Ok(());
        };
        self.mark(subprogram, Progress::Begun);
        self.path.push(Visit {
            subprogram,
            by,
            next: caller.last,
        })?;
        Ok(())
    }

    /// Follows a call: not to a subprogram that is being followed, since that calls itself.
    fn follow(&mut self, call: Call) -> Result<(), Trouble> {
        match self.caller(call.callee).map(|callee| callee.progress) {
            Some(Progress::New) => self.begin(call.callee, Some(call)),
            Some(Progress::Begun) => Err(Trouble {
                at: call.at,
                cause: Cause::Recursion,
            }),
            _ => self.pass_on(call),
        }
    }

    /// What a callee may do, the caller may do by the call: a function mustn't.
    fn pass_on(&mut self, call: Call) -> Result<(), Trouble> {
        let requests = self
            .caller(call.callee)
            .is_some_and(|callee| callee.requests);
        if !requests {
            return Ok(());
        }
        if self
            .caller(call.caller)
            .is_some_and(|caller| caller.is_function)
        {
            return Err(Trouble {
                at: call.at,
                cause: Cause::RequestInFunction,
            });
        }
        self.mark_requesting(call.caller);
        Ok(())
    }

    /// Follows the next call of a subprogram, or ends with it.
    fn step(&mut self, visit: Visit) -> Result<(), Trouble> {
        let call = visit.next.and_then(|index| self.calls.get(index).copied());
        match call {
            Some(call) => {
                self.path.push(Visit {
                    subprogram: visit.subprogram,
                    by: visit.by,
                    next: call.earlier,
                })?;
                self.follow(call)
            }
            None => {
                self.mark(visit.subprogram, Progress::Done);
                match visit.by {
                    Some(call) => self.pass_on(call),
                    None => Ok(()),
                }
            }
        }
    }

    /// Follows the calls that are being followed to their end.
    fn walk(&mut self) -> Result<(), Trouble> {
        for _ in 0..MOST_STEPS {
            let Some(visit) = self.path.pop() else {
                return Ok(());
            };
            self.step(visit)?;
        }
        Err(Trouble {
            at: 0,
            cause: Cause::BrokenTree,
        })
    }

    /// No subprogram calls itself, perhaps through others, and none in which a task may wait is called by a function.
    pub fn check(&mut self) -> Result<(), Trouble> {
        for subprogram in 0..self.callers.len() {
            if self
                .caller(subprogram)
                .is_some_and(|caller| caller.progress == Progress::New)
            {
                self.begin(subprogram, None)?;
                self.walk()?;
            }
        }
        Ok(())
    }
}
