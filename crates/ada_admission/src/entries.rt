//! Tests of the entries that a call or a choice is for: that the family is declared, that the index is in its range.

ghost use Rattle.std.specs.Prelude.{◌≡◌, ◌&&◌};
ghost use Rattle.std.specs.List.{list_any};
ghost use Rattle.ada_events.specs.declared.names.Choice.{Choice as ChoiceValue};
ghost use Rattle.ada_events.specs.Refusals as refusals;
ghost use Rattle.ada_events.specs.Tasks.{families_of};

use ada_events::{Choice, Entry, Family, TaskNo};
use ada_view::View;

// The families of entries that a task declares (9.5); the main program has none, nor has no task.
fn families<'a>(view: &'a View, task: TaskNo) -> &'a [Family]
    ensures { result.now ≡ families_of view.now task.0 }
{
    let tables = view.tables();
    if task.0 >= tables.tasks() {
        return &[];
    }
    tables.families(task).as_slice()
}

#[tactic(auto, unfolding(ada_events::specs::Refusals::lacks_family))]
pub(crate) fn lacks_family(view: &View, task: TaskNo, entry: Entry) -> bool
    ensures { result ≡ refusals.lacks_family view.now task.0 entry }
{
    families(view, task).get(entry.family as usize).is_none()
}

pub(crate) fn lacks_some_family(view: &View, by: TaskNo, choices: &[Choice]) -> bool
    ensures { result ≡ list_any (λ (c : ChoiceValue). refusals.lacks_family view.now by.0 c.entry)
        choices.now }
{
    choices
        .iter()
        .any(|choice| lacks_family(view, by, choice.entry))
}

// Whether the index of an entry lies outside its family's range (9.5).
#[tactic(auto, unfolding(ada_events::specs::Refusals::is_outside))]
pub(crate) fn is_outside(view: &View, task: TaskNo, entry: Entry) -> bool
    ensures { result ≡ refusals.is_outside view.now task.0 entry }
{
    match families(view, task).get(entry.family as usize) {
        Some(family) => !family.contains(entry.index),
        None => false,
    }
}

fn is_open_outside(view: &View, by: TaskNo, choice: Choice) -> bool
    ensures { result ≡ (choice.guard && refusals.is_outside view.now by.0 choice.entry) }
{
    choice.guard && is_outside(view, by, choice.entry)
}

pub(crate) fn has_open_outside(view: &View, by: TaskNo, choices: &[Choice]) -> bool
    ensures { result ≡ list_any
        (λ (c : ChoiceValue). c.guard && refusals.is_outside view.now by.0 c.entry) choices.now }
{
    choices
        .iter()
        .any(|choice| is_open_outside(view, by, *choice))
}
