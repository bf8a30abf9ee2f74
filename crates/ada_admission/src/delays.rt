//! The causes for which a delay statement and a move of the moment are refused (9.6).

ghost use Rattle.std.specs.Prelude.{◌≡◌};
ghost use Rattle.ada_events.specs.declared.request.Request.TheVariants as asked;
ghost use Rattle.ada_events.specs.Limits as limits;
ghost use Rattle.ada_events.specs.Refusals as refusals;
ghost use Rattle.ada_events.specs.Tasks.{moment};

use crate::limits::{ends_too_late, is_full};
use crate::names::{is_known, is_running};
use ada_events::limits::LAST_MOMENT;
use ada_events::{Refusal, TaskNo};
use ada_view::View;

// Whether a delay would end behind the last moment.
fn is_late_delay(view: &View, duration: i64) -> bool
    ensures { result ≡ limits.ends_too_late (moment view.now) duration }
{
    ends_too_late(view.moment(), duration)
}

/// The cause for which a delay statement is refused, if there is one (9.6).
#[tactic(auto, unfolding(ada_events::specs::Refusals::first_cause), using(crate::proofs::Causes::delay_causes))]
pub fn refusal_of_delay(view: &View, by: TaskNo, duration: i64) -> Option<Refusal>
    ensures { result ≡ refusals.refusal view.now (asked.Delay by duration) }
{
    if !is_known(view, by) {
        return Some(Refusal::UnknownTask);
    }
    if !is_running(view, by) {
        return Some(Refusal::NotRunning);
    }
    if is_late_delay(view, duration) {
        return Some(Refusal::MomentTooLarge);
    }
    if is_full(view) {
        return Some(Refusal::JournalFull);
    }
    None
}

/// The cause for which a move of the moment is refused, if there is one.
#[tactic(auto, unfolding(ada_events::specs::Refusals::first_cause), using(crate::proofs::Causes::tick_causes))]
pub fn refusal_of_tick(view: &View, now: i64) -> Option<Refusal>
    ensures { result ≡ refusals.refusal view.now (asked.Tick now) }
{
    if now < view.moment() {
        return Some(Refusal::MomentBack);
    }
    if LAST_MOMENT < now {
        return Some(Refusal::MomentTooLarge);
    }
    if is_full(view) {
        return Some(Refusal::JournalFull);
    }
    None
}
