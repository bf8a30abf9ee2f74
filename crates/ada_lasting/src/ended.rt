//! Which tasks of a kernel that lives on were terminated by the last request, by numbers that last.

ghost use Rattle.std.specs.Prelude.{◌≡◌, ◌≤◌, ◌==◌, ◌||◌, ◌&&◌, if◌then◌else◌, false, nat_lt, List, length, option_map, reverse, slice_index_or};
ghost use Rattle.std.specs.List.{list_any};
ghost use Rattle.ada_events.specs.declared.event.Event.{Event as Happening};
ghost use Rattle.ada_events.specs.declared.names.TaskNo.{TaskNo as Task};
ghost use Rattle.ada_events.specs.Phases as phases;
ghost use Rattle.ada_events.specs.Search.{first_below};
ghost use Rattle.ada_events.specs.Tasks.{task_count};
ghost use Rattle.ada_lasting.specs.Following.{Follows};
ghost use Rattle.ada_lasting.specs.LastRequest.{first_ended};
ghost use Rattle.ada_lasting.specs.internal.Ended as ended;

use crate::LongKernel;
use ada_events::limits::MOST_TASKS;
use ada_events::{Event, TaskNo};
use ada_kernel::Kernel;
use ada_view::View;

/// A flag for each task that there may be.
pub(crate) type Flags = [bool; MOST_TASKS];

fn is_terminated(view: &View<'_>, task: u16) -> bool
    ensures { result ≡ phases.is_terminated view.now task }
{
    view.record(TaskNo(task)).stage.terminated
}

// Of each task whether it is terminated.
fn ended_in(view: &View<'_>) -> Flags
    ensures { result ≡ ended.ended_in view.now }
{
    let mut flags = [false; MOST_TASKS];
    for task in 0..MOST_TASKS as u16 {
        flags[usize::from(task)] = is_terminated(view, task);
    }
    flags
}

#[tactic(auto, unfolding(crate::specs::internal::Ended::is_end))]
fn is_end(event: &Event) -> bool
    ensures { result ≡ ended.is_end event.now }
{
    matches!(event, Event::Gone { .. } | Event::Quit { .. })
}

fn has_end(events: &[Event]) -> bool
    ensures { result ≡ list_any ended.is_end (reverse events.now) }
{
    events.iter().rev().any(|event| is_end(event))
}

// The events of a kernel's journal from one on, in their order.
fn events_from(kernel: &Kernel, from: u32) -> &[Event]
    requires { from ≤ length kernel.now }
    ensures { reverse result.now ≡ ended.events_from from kernel.now }
{
    &kernel.journal().as_slice()[from as usize..]
}

// Whether there are no events, or more than one, of which one terminates tasks: the event of a request never does.
fn is_stale(events: &[Event]) -> bool
    ensures { result ≡ (length events.now == 0 || (nat_lt 1 (length events.now)
        && list_any ended.is_end (reverse events.now))) }
{
    events.is_empty() || (events.len() > 1 && has_end(events))
}

// Apart, as is each move of all flags, since a request mostly needs none.
#[inline(never)]
fn read(flags: &mut Flags, kernel: &Kernel)
    ensures { flags.new ≡ ended.ended_in kernel.now }
{
    *flags = ended_in(&kernel.view());
}

#[inline(never)]
fn copy(flags: &mut Flags, next: &Flags)
    ensures { flags.new ≡ next.now }
{
    *flags = *next;
}

/// Reads who is terminated now, if that isn't told by flags that tell who was before the events from one on.
#[inline(always)]
pub(crate) fn read_ended(next: &mut Flags, kernel: &Kernel, from: u32, flags: &Flags) -> bool
    requires within { from ≤ length kernel.now }
    requires known { ended.KnowsEnded flags.now from kernel.now }
    ensures { (if result then next.new else flags.now) ≡ ended.ended_in kernel.now }
{
    if is_stale(events_from(kernel, from)) {
        read(next, kernel);
        return true;
    }
    false
}

/// Takes the flags that were read, if any were.
#[inline(always)]
pub(crate) fn take_ended(flags: &mut Flags, next: &Flags, are_read: bool)
    ensures { flags.new ≡ (if are_read then next.now else flags.old) }
{
    if are_read {
        copy(flags, next);
    }
}

fn is_flagged(flags: &[bool], task: TaskNo) -> bool
    ensures { result ≡ slice_index_or flags.now task.0 false }
{
    flags.get(usize::from(task.0)).copied().unwrap_or(false)
}

fn ended_from(kernel: &Kernel, flags: &Flags, from: TaskNo, task: TaskNo) -> Option<TaskNo>
    ensures { option_map (λ (t : Task). t.0) result
        ≡ ended.newly_ended flags.now kernel.now from.0 task.0 }
{
    if task.0 >= from.0 && is_terminated(&kernel.view(), task.0) && !is_flagged(flags, task) {
        Some(task)
    } else {
        None
    }
}

/// The first task of a number or more of the present journal that is terminated and isn't flagged.
#[tactic(auto, unfolding(ada_events::specs::Search::first_below), using(ada_waiting::proofs::Numbers::first_below_more))]
pub(crate) fn first_ended(kernel: &Kernel, flags: &Flags, from: TaskNo) -> Option<TaskNo>
    ensures { option_map (λ (t : Task). t.0) result
        ≡ first_below (ended.newly_ended flags.now kernel.now from.0) (task_count kernel.now) }
{
    let mut first = None;
    for number in 0..kernel.tasks() {
        if first.is_none() {
            first = ended_from(kernel, flags, from, TaskNo(number));
        }
    }
    first
}

impl LongKernel {
    /// The first task of a number or more that is terminated and wasn't before the last accepted request (9.4); none if
    /// there is no such task. None after a release, and none once the journal was made shorter since that request.
    pub fn first_terminated(&self, from: u64) -> Option<u64>
        ensures { (journal : List Happening) → Follows journal self.now
            → result ≡ first_ended journal self.now from }
    {
        self.known();
        if self.group().is_empty() {
            return None;
        }
        let names = self.names();
        let there = names.first_there(from, self.present().tasks());
        names.lasting_task(self.first_ended(there)?)
    }
}
