//! How many calls are queued at an entry of a task of a kernel that lives on, whoever asks.

ghost use Rattle.std.specs.Prelude.{◌≡◌, ◌<◌, ℕ, List, slice_get};
ghost use Rattle.std.specs.Option.{option_and_then};
ghost use Rattle.ada_events.specs.declared.event.Event.{Event as Happening};
ghost use Rattle.ada_events.specs.Entries.{is_in_range};
ghost use Rattle.ada_events.specs.Tasks.{families_of, task_count};
ghost use Rattle.ada_lasting.specs.Following.{Follows};
ghost use Rattle.ada_lasting.specs.Naming.{found};
ghost use Rattle.ada_lasting.specs.Queues.{queued};

use crate::LongKernel;
use ada_events::{Entry, Family, TaskNo};
use ada_view::View;

// The family of that number among those that a task declares (9.5).
fn declared(view: &View<'_>, task: TaskNo, number: u8) -> Option<Family>
    requires { task.0 < task_count view.now }
    ensures { result ≡ slice_get (families_of view.now task.0) number }
{
    let families = view.tables().families(task);
    families.as_slice().get(usize::from(number)).copied()
}

// Whether the index of an entry lies in the range of its family.
fn is_within(family: Family, entry: Entry) -> bool
    ensures { result ≡ is_in_range family entry.index }
{
    family.contains(entry.index)
}

/// How many calls are queued at an entry of a task that is there (9.5); none if the task doesn't have the entry.
pub fn queued_in(view: &View<'_>, task: TaskNo, entry: Entry) -> Option<u16>
    requires { task.0 < task_count view.now }
    ensures { result ≡ queued view.now task.0 entry }
{
    let family = declared(view, task, entry.family)?;
    if is_within(family, entry) {
        Some(view.tables().queue_len(task, entry))
    } else {
        None
    }
}

impl LongKernel {
    /// How many calls are queued at an entry of a task (9.5), at most 256: its COUNT (9.9), which anybody may ask here.
    /// None if the task was never made or given up, or doesn't have the entry.
    pub fn queued(&self, task: u64, entry: Entry) -> Option<u16>
        ensures { (journal : List Happening) → Follows journal self.now → result
            ≡ option_and_then (λ (v : ℕ). queued journal task entry)
            (found self.now.names.tasks task) }
    {
        self.known();
        let names = self.names();
        let kernel = self.present();
        let asked = names.task(task)?;
        queued_in(&kernel.view(), asked, entry)
    }
}
