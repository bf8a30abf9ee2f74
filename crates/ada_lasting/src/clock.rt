//! A kernel that lives on, by a clock of its host's.

ghost use Rattle.std.specs.Prelude.{◌≡◌, int_lt, IfErr, IfOk, List, map};
ghost use Rattle.std.specs.List.{list_any};
ghost use Rattle.ada_events.specs.declared.event.Event.{Event as Happening};
ghost use Rattle.ada_events.specs.Tasks.{moment};
ghost use Rattle.ada_lasting.specs.Clock as clock;
ghost use Rattle.ada_lasting.specs.Clock.{IsRefusedAt, IsSteppedAt, asked_later, wants_tick};
ghost use Rattle.ada_lasting.specs.Clock.{is_over_at_once};
ghost use Rattle.ada_lasting.specs.Following.{Follows};
ghost use Rattle.ada_lasting.specs.Meaning.{meant};

use crate::{LastingRequest, LongKernel, NotDone};
use ada_events::{Patience, Pause, Pauses, Refusal, Tail};

// A duration that counts from `gap` milliseconds later.
#[tactic(auto, unfolding(ada_events::specs::Asks::due_after))]
fn longer(gap: i64, duration: i64) -> i64
    ensures { result ≡ clock.longer gap duration }
{
    gap.saturating_add(duration.max(0))
}

fn longer_pauses(gap: i64, pauses: &Pauses) -> Pauses
    ensures { result ≡ map (clock.longer_pause gap) pauses.now }
{
    let mut later = Pauses::new();
    for pause in pauses.as_slice() {
        later.push(Pause {
            guard: pause.guard,
            duration: longer(gap, pause.duration),
        });
    }
    later
}

fn longer_tail(gap: i64, tail: Tail) -> Tail
    ensures { result ≡ clock.longer_tail gap tail }
{
    match tail {
        Tail::Delays(pauses) => Tail::Delays(longer_pauses(gap, &pauses)),
        _ => tail,
    }
}

fn longer_patience(gap: i64, patience: Patience) -> Patience
    ensures { result ≡ clock.longer_patience gap patience }
{
    match patience {
        Patience::Timed(duration) => Patience::Timed(longer(gap, duration)),
        _ => patience,
    }
}

// Whether a delay alternative is open and over at once.
fn is_past(pause: Pause) -> bool
    ensures { result ≡ clock.is_past pause }
{
    pause.guard && pause.duration <= 0
}

fn is_any_past(pauses: &[Pause]) -> bool
    ensures { result ≡ list_any clock.is_past pauses.now }
{
    pauses.iter().any(|pause| is_past(*pause))
}

impl LastingRequest {
    // Whether a duration of it is over at once.
    #[tactic(auto, unfolding(crate::specs::Meaning::meant, crate::specs::Clock::is_over_at_once))]
    fn is_over_at_once(&self) -> bool
        ensures { result ≡ is_over_at_once (meant self.now) }
    {
        match self {
            LastingRequest::Call {
                patience: Patience::Timed(duration),
                ..
            }
            | LastingRequest::Delay { duration, .. } => *duration <= 0,
            LastingRequest::Wait {
                tail: Tail::Delays(pauses),
                ..
            } => is_any_past(pauses.as_slice()),
            _ => false,
        }
    }

    // The request, its durations counted from `gap` milliseconds later.
    #[tactic(auto, unfolding(crate::specs::Meaning::meant, crate::specs::Clock::asked_later))]
    fn later(self, gap: i64) -> LastingRequest
        ensures { meant result ≡ asked_later gap (meant self) }
    {
        match self {
            LastingRequest::Call {
                by,
                callee,
                entry,
                patience,
            } => LastingRequest::Call {
                by,
                callee,
                entry,
                patience: longer_patience(gap, patience),
            },
            LastingRequest::Wait {
                by,
                choices,
                tail,
                pick,
            } => LastingRequest::Wait {
                by,
                choices,
                tail: longer_tail(gap, tail),
                pick,
            },
            LastingRequest::Delay { by, duration } => LastingRequest::Delay {
                by,
                duration: longer(gap, duration),
            },
            _ => self,
        }
    }
}

impl LongKernel {
    // Whether a moment of the host's clock is before the kernel's.
    fn is_before(&self, now: i64) -> bool
        ensures { (journal : List Happening) → Follows journal self.now
            → result ≡ int_lt now (moment journal) }
    {
        now < self.moment()
    }

    // The time since the kernel's moment.
    fn since(&self, now: i64) -> i64
        ensures { (journal : List Happening) → Follows journal self.now
            → result ≡ clock.since journal now }
    {
        now.saturating_sub(self.moment())
    }

    // Whether a tick to a moment of the host's clock comes before a request.
    fn wants_tick(&self, now: i64, request: &LastingRequest) -> bool
        ensures { (journal : List Happening) → Follows journal self.now
            → result ≡ wants_tick journal now (meant request.now) }
    {
        match self.next_due() {
            Some(due) if due <= now => true,
            _ => self.moment() < now && request.is_over_at_once(),
        }
    }

    /// Answers a request at a moment of the host's clock, `now` milliseconds from the beginning. If a task waits for
    /// that moment or for an earlier one, or a duration of the request is over at once, a tick to it is asked first, as
    /// by [`LongKernel::step`], and then the request. Else there is no tick, and the request's durations count from
    /// `now`. So a clock costs no event if nothing is due.
    ///
    /// # Errors
    ///
    /// [`NotDone::Refused`] with `MomentBack` if `now` is before the kernel's moment; and those of
    /// [`LongKernel::step`]. If the request is refused after a tick, the tick stays.
    pub fn step_at(&mut self, now: i64, request: LastingRequest) -> Result<u64, NotDone>
        ensures ok { IfOk result (λ at. (journal : List Happening) → Follows journal self.old
            → IsSteppedAt journal now (meant request) self.old at self.new) }
        ensures err { IfErr result (λ cause. (journal : List Happening) → Follows journal self.old
            → IsRefusedAt journal now (meant request) cause self.old self.new) }
    {
        if self.is_before(now) {
            return Err(NotDone::Refused(Refusal::MomentBack));
        }
        if !self.wants_tick(now, &request) {
            return self.step(request.later(self.since(now)));
        }
        match self.step(LastingRequest::Tick { now }) {
            Ok(_) => self.step(request),
            Err(cause) => Err(cause),
        }
    }
}
