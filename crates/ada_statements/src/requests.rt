//! The requests that statements make.

ghost use Rattle.std.specs.Prelude.{◌≡◌, false, Some, map};
ghost use Rattle.ada_events.specs.declared.request.Request.{Request as RequestValue};
ghost use Rattle.ada_events.specs.declared.request.Request.TheVariants as requests;
ghost use Rattle.ada_statements.specs.Binding.{task_of, master_of, family_of, choice_of, accepted, is_show, request_of};

use crate::statement::{Alternatives, Declarations, EntryName, TaskNames};
use crate::{Name, Names, Statement};
use ada_events::{Bounded, Choice, Choices, Families, Family, Patience, Request, Tail, Tasks};

/// The tasks of these names.
fn tasks_of(tasks: &TaskNames, names: &Names) -> Tasks
    ensures { result ≡ map (task_of names.now) tasks.now }
{
    let mut numbers = Bounded::new();
    for task in tasks.as_slice() {
        numbers.push(names.task(task));
    }
    numbers
}

/// The bounds of these families.
fn families_of(families: &Declarations) -> Families
    ensures { result ≡ map family_of families.now }
{
    let mut bounds = Bounded::new();
    for family in families.as_slice() {
        bounds.push(family.bounds.unwrap_or(Family { low: 0, high: 0 }));
    }
    bounds
}

/// The accept alternatives of a task.
fn choices_of(choices: &Alternatives, by: &Name, names: &Names) -> Choices
    ensures { result ≡ map (choice_of names.now by.now) choices.now }
{
    let mut accepts = Bounded::new();
    for choice in choices.as_slice() {
        accepts.push(Choice {
            guard: choice.guard,
            entry: names.entry(by, &choice.entry),
        });
    }
    accepts
}

/// Another tail of the same kind.
fn copy_of(tail: &Tail) -> Tail
    ensures { result ≡ tail.now }
{
    match tail {
        Tail::Nothing => Tail::Nothing,
        Tail::Otherwise => Tail::Otherwise,
        Tail::Delays(pauses) => Tail::Delays(Bounded::from_slice(pauses.as_slice())),
        Tail::Terminate(guard) => Tail::Terminate(*guard),
    }
}

/// Whom requests are made of.
pub trait RequestSink {
    ghost use Rattle.ada_events.specs.declared.request.Request.{Request as RequestOf};

    /// What it answers to a request.
    type Answer;

    /// Whether it may answer a request so, and what it is then.
    ghost answers: { Self → RequestOf → Self.Answer → Self → Type 0 };

    /// Takes a request, and answers it.
    fn take(&mut self, request: Request) -> Self::Answer
        ensures { answers self.old request result self.new };
}

/// Makes the wait for a call of one entry.
#[inline(never)]
fn send_accept<A: RequestSink>(
    by: &Name,
    entry: &EntryName,
    names: &Names,
    sink: &mut A,
) -> A::Answer
    ensures { A.answers sink.old (accepted names.now by.now entry.now) result sink.new }
{
    let mut choices = Bounded::new();
    choices.push(Choice {
        guard: true,
        entry: names.entry(by, entry),
    });
    sink.take(Request::Wait {
        by: names.task(by),
        choices,
        tail: Tail::Nothing,
        pick: 0,
    })
}

/// Makes the creation of a task.
#[inline(never)]
fn send_create<A: RequestSink>(
    by: &Name,
    under: &Name,
    families: &Declarations,
    names: &Names,
    sink: &mut A,
) -> A::Answer
    ensures { A.answers sink.old
        (requests.Create (task_of names.now by.now) (master_of names.now under.now)
        (map family_of families.now)) result sink.new }
{
    sink.take(Request::Create {
        by: names.task(by),
        master: names.master(under),
        families: families_of(families),
    })
}

/// Makes the activation of tasks.
#[inline(never)]
fn send_activate<A: RequestSink>(
    by: &Name,
    tasks: &TaskNames,
    names: &Names,
    sink: &mut A,
) -> A::Answer
    ensures { A.answers sink.old
        (requests.Activate (task_of names.now by.now) (map (task_of names.now) tasks.now)) result
        sink.new }
{
    sink.take(Request::Activate {
        by: names.task(by),
        tasks: tasks_of(tasks, names),
    })
}

/// Makes the wait of a selective wait.
#[inline(never)]
fn send_select<A: RequestSink>(
    by: &Name,
    pick: u32,
    choices: &Alternatives,
    tail: &Tail,
    names: &Names,
    sink: &mut A,
) -> A::Answer
    ensures { A.answers sink.old
        (requests.Wait (task_of names.now by.now) (map (choice_of names.now by.now) choices.now)
        tail.now pick) result sink.new }
{
    sink.take(Request::Wait {
        by: names.task(by),
        choices: choices_of(choices, by, names),
        tail: copy_of(tail),
        pick,
    })
}

/// Makes the abort of tasks.
#[inline(never)]
fn send_abort<A: RequestSink>(
    by: &Name,
    tasks: &TaskNames,
    names: &Names,
    sink: &mut A,
) -> A::Answer
    ensures { A.answers sink.old
        (requests.Abort (task_of names.now by.now) (map (task_of names.now) tasks.now)) result
        sink.new }
{
    sink.take(Request::Abort {
        by: names.task(by),
        tasks: tasks_of(tasks, names),
    })
}

/// Makes the request of a statement that shows no attribute, under these names: its `request`.
// Each request is given away where its kind is known, so that one without a list needn't lie in memory. Those with
// lists are made in functions of their own, so that no other waits for room for a list.
#[inline(always)]
pub fn send<A: RequestSink>(statement: &Statement, names: &Names, sink: &mut A) -> A::Answer
    requires { is_show statement.now ≡ false }
    ensures { (request : RequestValue) × (Some request ≡ request_of names.now statement.now)
        × A.answers sink.old request result sink.new }
{
    match statement {
        Statement::Tick { now } => sink.take(Request::Tick { now: *now }),
        Statement::Open { by, .. } => sink.take(Request::Open { by: names.task(by) }),
        Statement::Create {
            by,
            under,
            families,
            ..
        } => send_create(by, under, families, names, sink),
        Statement::Activate { by, tasks } => send_activate(by, tasks, names, sink),
        Statement::Up { by } => sink.take(Request::Elaborated {
            by: names.task(by),
            ok: true,
        }),
        Statement::Fail { by } => sink.take(Request::Elaborated {
            by: names.task(by),
            ok: false,
        }),
        Statement::Call { by, callee, entry } => sink.take(Request::Call {
            by: names.task(by),
            callee: names.task(callee),
            entry: names.entry(callee, entry),
            patience: Patience::Simple,
        }),
        Statement::CallWithin {
            by,
            callee,
            entry,
            duration,
        } => sink.take(Request::Call {
            by: names.task(by),
            callee: names.task(callee),
            entry: names.entry(callee, entry),
            patience: Patience::Timed(*duration),
        }),
        Statement::Try { by, callee, entry } => sink.take(Request::Call {
            by: names.task(by),
            callee: names.task(callee),
            entry: names.entry(callee, entry),
            patience: Patience::Conditional,
        }),
        Statement::Accept { by, entry } => send_accept(by, entry, names, sink),
        Statement::Select {
            by,
            pick,
            choices,
            tail,
        } => send_select(by, *pick, choices, tail.get(), names, sink),
        Statement::End { by } => sink.take(Request::End {
            by: names.task(by),
            raised: false,
        }),
        Statement::Raise { by } => sink.take(Request::End {
            by: names.task(by),
            raised: true,
        }),
        Statement::Close { by } => sink.take(Request::Close { by: names.task(by) }),
        Statement::Delay { by, duration } => sink.take(Request::Delay {
            by: names.task(by),
            duration: *duration,
        }),
        Statement::Complete { by } => sink.take(Request::Complete { by: names.task(by) }),
        Statement::Abort { by, tasks } => send_abort(by, tasks, names, sink),
        Statement::ShowCallable { .. }
        | Statement::ShowTerminated { .. }
        | Statement::ShowCount { .. } => unreachable!(),
    }
}

/// Whoever gives back the request that is made.
#[derive(Drop)]
struct Giver;

impl RequestSink for Giver {
    type Answer = Request;

    ghost answers = { λ before request answer after. answer ≡ request };

    #[inline(always)]
    fn take(&mut self, request: Request) -> Request {
        request
    }
}

/// What a statement that shows no attribute asks of the kernel, under these names: its `request`.
pub fn request_of(statement: &Statement, names: &Names) -> Request
    requires { is_show statement.now ≡ false }
    ensures { Some result ≡ request_of names.now statement.now }
{
    send(statement, names, &mut Giver)
}

/// What a statement asks of the kernel, under these names. A name that isn't bound stands for task
/// number 65,535 or for the block at position 0, which there are none of. A statement that shows an
/// attribute asks for nothing.
pub fn request(statement: &Statement, names: &Names) -> Option<Request>
    ensures { result ≡ request_of names.now statement.now }
{
    if statement.is_show() {
        None
    } else {
        Some(request_of(statement, names))
    }
}
