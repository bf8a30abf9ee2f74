//! The causes for which an abort is refused (9.10).

ghost use Rattle.std.specs.Prelude.{◌≡◌};
ghost use Rattle.ada_events.specs.declared.request.Request.TheVariants as asked;
ghost use Rattle.ada_events.specs.Refusals as refusals;

use crate::limits::is_full;
use crate::names::{is_running, names_unknown};
use ada_events::{Refusal, TaskNo};
use ada_view::View;

/// The cause for which an abort is refused, if there is one (9.10).
#[tactic(auto, unfolding(ada_events::specs::Refusals::first_cause), using(crate::proofs::Causes::abort_causes))]
pub fn refusal_of_abort(view: &View, by: TaskNo, tasks: &[TaskNo]) -> Option<Refusal>
    ensures { result ≡ refusals.refusal view.now (asked.Abort by tasks.now) }
{
    if names_unknown(view, by, tasks) {
        return Some(Refusal::UnknownTask);
    }
    if !is_running(view, by) {
        return Some(Refusal::NotRunning);
    }
    if tasks.is_empty() {
        return Some(Refusal::EmptyList);
    }
    if TaskNo(0).is_listed(tasks) {
        return Some(Refusal::MainTask);
    }
    if is_full(view) {
        return Some(Refusal::JournalFull);
    }
    None
}
