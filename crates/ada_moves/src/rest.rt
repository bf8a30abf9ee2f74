//! What is left of a behaviour to do.

ghost use Rattle.std.specs.Prelude.{◌≡◌, ◌++◌, ◌∷◌, [], if◌then◌else◌, map, IfOk, OnOk, Option, None};
ghost use Rattle.std.specs.Option.{option_map};
ghost use Rattle.std.specs.List.{range_with_len};
ghost use Rattle.ada_behaviours.specs.declared.want.ObjectNo.{ObjectNo as Number};
ghost use Rattle.ada_behaviours.specs.Moves as moves;

use crate::telling::tell_all;
use ada_behaviours::{Behaviour, ObjectNo};
use ada_events::TaskNo;
use ada_kernel::Kernel;
use ada_search::{Halt, KeyWriter, TaskSet};
use std::alloc::{AllocError, Global};
use std::marker::Model;

/// What is left of a behaviour to do, and which task each object has.
#[derive(Drop)]
pub struct Rest<State> {
    /// What its objects have still to do, with the variables of the program.
    pub state: State,
    /// The task of each object, by the numbers of the objects; none if it isn't made, or may not be named any more.
    pub tasks: Vec<Option<u16>>,
}

impl<State> Model for Rest<State> {
    ghost use Rattle.ada_behaviours.specs.Moves as moves;

    ghost Value = { moves.Rest State };

    ghost view = { λ r. record { state = r.state; tasks = r.tasks.items } };
}

impl<State> Rest<State> {
    /// The tasks that may still be named.
    pub(crate) fn named_tasks(&self) -> TaskSet {
        let mut named = TaskSet::new();
        for task in &self.tasks {
            if let Some(task) = task {
                named.insert(TaskNo(*task));
            }
        }
        named
    }

    /// Writes which task each object has into the key of a state.
    pub(crate) fn write_tasks(&self, key: &mut KeyWriter<'_, '_>) -> Result<(), AllocError> {
        for task in &self.tasks {
            match task {
                Some(task) => key.task(TaskNo(*task))?,
                None => key.number(u16::MAX)?,
            }
        }
        Ok(())
    }
}

// Puts the task of one object more after those of others.
fn add(tasks: &mut Vec<Option<u16>>, task: Option<u16>) -> Result<(), Halt>
    ensures { OnOk result (tasks.new.items ≡ tasks.old.items ++ task ∷ []) }
{
    tasks.push(task).map_err(|_| Halt::Memory)
}

// The task of an object at the beginning.
fn first_task(object: u16) -> Option<u16>
    ensures { result ≡ moves.first_task object }
{
    if object == 0 { Some(0) } else { None }
}

// The tasks of so many objects at the beginning: the main program alone has its task.
fn first_tasks(alloc: Global, objects: u16) -> Result<Vec<Option<u16>>, Halt>
    ensures { IfOk result (λ tasks.
        tasks.items ≡ map moves.first_task (range_with_len 0 objects)) }
{
    let mut tasks = Vec::new(alloc);
    for object in 0..objects {
        add(&mut tasks, first_task(object))?;
    }
    Ok(tasks)
}

/// What is to be done at the beginning.
pub(crate) fn begin<B: Behaviour>(alloc: Global, behaviour: &B) -> Result<Rest<B::State>, Halt>
    ensures { IfOk result (λ rest.
        rest ≡ (moves.behaving (B.told behaviour.now)).start) }
{
    let state = behaviour.start(alloc)?;
    let tasks = first_tasks(alloc, behaviour.objects())?;
    Ok(Rest { state, tasks })
}

/// A copy of what is left to do, which goes on by itself.
pub(crate) fn copy<B: Behaviour>(
    alloc: Global,
    behaviour: &B,
    rest: &Rest<B::State>,
) -> Result<Rest<B::State>, Halt>
    ensures { IfOk result (λ copy. copy ≡ rest.now) }
{
    let state = behaviour.copy(alloc, &rest.state)?;
    let tasks = Vec::from_slice(alloc, &rest.tasks).map_err(|_| Halt::Memory)?;
    Ok(Rest { state, tasks })
}

// The task of an object, if it may be named.
fn named(is_named: bool, task: Option<u16>) -> Option<u16>
    ensures { result ≡ (if is_named then task else None) }
{
    if is_named { task } else { None }
}

/// The object at a place, of which a program has no more than its numbers.
pub(crate) fn object_at(place: usize) -> Result<ObjectNo, Halt>
    ensures { IfOk result (λ object. object.0 ≡ place) }
{
    let number = u16::try_from(place).map_err(|_| Halt::TooLong)?;
    Ok(ObjectNo(number))
}

// Forgets the tasks of objects that may not be named any more.
fn forget<B: Behaviour>(
    behaviour: &B,
    state: &B::State,
    tasks: &mut Vec<Option<u16>>,
) -> Result<(), Halt>
    ensures { OnOk result (tasks.new.items
        ≡ moves.named_only (B.told behaviour.now) state.now 0 tasks.old.items) }
{
    for place in 0..tasks.len() {
        let object = object_at(place)?;
        tasks[place] = named(behaviour.names(state, object), tasks[place]);
    }
    Ok(())
}

/// Notes the task of an object that was made, if one was.
pub(crate) fn note_made(tasks: &mut Vec<Option<u16>>, made: Option<ObjectNo>, task: u16)
    ensures { tasks.new.items
        ≡ moves.with_made (option_map (λ (o : Number). o.0) made) task 0 tasks.old.items }
{
    let Some(object) = made else {
        return;
    };
    let place = usize::from(object.0);
    if place < tasks.len() {
        tasks[place] = Some(task);
    }
}

/// Leaves what is to be done with the tasks that may still be named.
pub(crate) fn leave<B: Behaviour>(behaviour: &B, rest: &mut Rest<B::State>) -> Result<(), Halt>
    ensures { OnOk result (rest.new
        ≡ moves.left_with (B.told behaviour.now) rest.old.tasks rest.old.state) }
{
    forget(behaviour, &rest.state, &mut rest.tasks)
}

/// Tells all objects what became of their tasks, and leaves that.
pub(crate) fn settle<B: Behaviour>(
    behaviour: &B,
    kernel: &Kernel,
    rest: &mut Rest<B::State>,
) -> Result<(), Halt>
    ensures { OnOk result (rest.new
        ≡ moves.settled_in (B.told behaviour.now) kernel.now rest.old.tasks rest.old.state) }
{
    tell_all(behaviour, kernel, &rest.tasks, &mut rest.state)?;
    leave(behaviour, rest)
}
