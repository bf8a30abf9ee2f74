//! Whether two present journals are the same, and what has names in them.

ghost use Rattle.std.specs.Prelude.{◌≡◌, true};
ghost use Rattle.ada_border.specs.Events.{choices_of, dues_of, families_of, tasks_of};

use crate::names::Names;
use crate::rows::Row;
use ada_border::events::{PlainEvent, plain_of};
use ada_border::lists;
use ada_events::{Choice, Entry, Event, Family, TaskNo};
use ada_kernel::Kernel;

fn are_same_numbers(event: PlainEvent, other: PlainEvent) -> bool
    ensures { result ≡ true → event ≡ other }
{
    event == other
}

fn are_same_tasks(tasks: &[TaskNo], others: &[TaskNo]) -> bool
    ensures { result ≡ true → tasks.now ≡ others.now }
{
    tasks == others
}

fn are_same_families(families: &[Family], others: &[Family]) -> bool
    ensures { result ≡ true → families.now ≡ others.now }
{
    families == others
}

fn are_same_choices(choices: &[Choice], others: &[Choice]) -> bool
    ensures { result ≡ true → choices.now ≡ others.now }
{
    choices == others
}

fn are_same_dues(dues: &[Option<i64>], others: &[Option<i64>]) -> bool
    ensures { result ≡ true → dues.now ≡ others.now }
{
    dues == others
}

fn has_same_lists(event: &Event, other: &Event) -> bool
    ensures tasks { result ≡ true → tasks_of event.now ≡ tasks_of other.now }
    ensures families { result ≡ true → families_of event.now ≡ families_of other.now }
    ensures choices { result ≡ true → choices_of event.now ≡ choices_of other.now }
    ensures dues { result ≡ true → dues_of event.now ≡ dues_of other.now }
{
    are_same_tasks(lists::tasks_of(event), lists::tasks_of(other))
        && are_same_families(lists::families_of(event), lists::families_of(other))
        && are_same_choices(lists::choices_of(event), lists::choices_of(other))
        && are_same_dues(lists::dues_of(event), lists::dues_of(other))
}

// Whether two events are the same: an event is told whole by its numbers and its lists.
fn is_same_event(event: &Event, other: &Event) -> bool
    ensures { result ≡ true → event.now ≡ other.now }
{
    are_same_numbers(plain_of(event), plain_of(other)) && has_same_lists(event, other)
}

fn are_same_events(events: &[Event], others: &[Event]) -> bool
    ensures { result ≡ true → events.now ≡ others.now }
{
    if events.len() != others.len() {
        return false;
    }
    for (event, other) in events.iter().zip(others) {
        if !is_same_event(event, other) {
            return false;
        }
    }
    true
}

fn are_same_rows(rows: &[Row], others: &[Row]) -> bool
    ensures { result ≡ true → rows.now ≡ others.now }
{
    rows == others
}

impl Names {
    /// Whether these are the same names.
    pub(crate) fn are_same(&self, other: &Names) -> bool
        ensures { result ≡ true → self.now ≡ other.now }
    {
        are_same_rows(&self.tasks, &other.tasks)
            && are_same_rows(&self.places, &other.places)
            && self.made == other.made
            && self.since == other.since
            && self.from == other.from
            && self.until == other.until
    }
}

// Whether two kernels answer alike of an entry.
fn is_like_entry(kernel: &Kernel, other: &Kernel, task: TaskNo, entry: Entry) -> bool {
    kernel.slot(task, entry) == other.slot(task, entry)
        && kernel.count(task, entry) == other.count(task, entry)
}

fn is_like_family(kernel: &Kernel, other: &Kernel, task: TaskNo, at: usize, has: Family) -> bool {
    let Ok(family) = u8::try_from(at) else {
        return false;
    };
    (has.low..=has.high).all(|index| is_like_entry(kernel, other, task, Entry { family, index }))
}

fn are_like_entries(kernel: &Kernel, other: &Kernel, task: TaskNo, families: &[Family]) -> bool {
    families
        .iter()
        .enumerate()
        .all(|(at, has)| is_like_family(kernel, other, task, at, *has))
}

// Whether two kernels answer alike of a task.
fn is_like_task(kernel: &Kernel, other: &Kernel, task: TaskNo) -> bool {
    let entries = match kernel.view().creation(task) {
        Some(event) => are_like_entries(kernel, other, task, lists::families_of(event)),
        None => true,
    };
    entries
        && kernel.record(task) == other.record(task)
        && kernel.outcome(task) == other.outcome(task)
        && kernel.callable(task) == other.callable(task)
        && kernel.terminated(task) == other.terminated(task)
        && kernel.running(task) == other.running(task)
}

// Whether two kernels answer alike, which tells of what they keep beside their journals.
fn answer_alike(kernel: &Kernel, other: &Kernel) -> bool {
    kernel.tasks() == other.tasks()
        && kernel.finished() == other.finished()
        && kernel.board() == other.board()
        && (0..kernel.tasks()).all(|task| is_like_task(kernel, other, TaskNo(task)))
}

/// Whether two kernels have the same journal, and answer alike.
pub(crate) fn are_same_kernels(kernel: &Kernel, other: &Kernel) -> bool
    ensures { result ≡ true → kernel.now ≡ other.now }
{
    are_same_events(kernel.journal().as_slice(), other.journal().as_slice())
        && answer_alike(kernel, other)
}
