//! The rows of selective waits (9.7.1): what takes a call, and what ends otherwise.

ghost use Rattle.std.specs.Prelude.{◌≡◌, ◌≤◌, Some, length, slice_get};
ghost use Rattle.std.specs.Option.{option_and_then, option_map, unwrap_or};
ghost use Rattle.ada_events.specs.Outcomes as outcomes;
ghost use Rattle.ada_events.specs.Says.{wait_in};
ghost use Rattle.ada_events.specs.Search.{event_at};
ghost use Rattle.ada_events.specs.Waits as waits;
ghost use Rattle.ada_events.specs.declared.event.Event.TheVariants as step;
ghost use Rattle.ada_events.specs.declared.limits.TheConstants.{MOST_CHOICES};
ghost use Rattle.ada_step_laws.specs.Rows.{at_event, step_at};
ghost use Rattle.ada_step_laws.specs.declared.row.Row.TheVariants as row;
ghost use Rattle.ada_view.specs.internal.Choosing.{IsOfTask, AreOfTask};

use crate::view::View;
use ada_events::{Choice, ChoiceNumbers, Event, TaskNo, Way, picked, push_if, way_of};

impl<'a> View<'a> {
    // The call at the front of an open choice's queue.
    #[tactic(auto, unfolding(ada_events::specs::Waits::front_of))]
    fn front_of(&self, task: TaskNo, choice: Choice) -> Option<u32>
        requires { IsOfTask self.now task.0 choice }
        ensures { result ≡ waits.front_of self.now task.0 choice }
    {
        if choice.guard {
            self.tables().front(task, choice.entry)
        } else {
            None
        }
    }

    // Whether a call is at the front of an open choice's queue.
    #[tactic(auto, unfolding(ada_events::specs::Waits::is_selectable))]
    fn is_selectable(&self, task: TaskNo, choice: Choice) -> bool
        requires { IsOfTask self.now task.0 choice }
        ensures { result ≡ waits.is_selectable self.now task.0 choice }
    {
        self.front_of(task, choice).is_some()
    }

    // The numbers of the selectable choices, counted over all from 0. Inlined, though seldom asked, since for a call
    // the view would lie in memory, wherever it is made.
    #[inline(always)]
    #[tactic(auto, unfolding(ada_events::specs::Waits::numbers_from))]
    fn selectable(&self, task: TaskNo, choices: &[Choice]) -> ChoiceNumbers
        requires few { length choices.now ≤ MOST_CHOICES }
        requires declared { AreOfTask self.now task.0 choices.now }
        ensures { result ≡ waits.numbers_from (waits.is_selectable self.now task.0) 0 choices.now }
    {
        let mut numbers = ChoiceNumbers::new();
        for (i, choice) in choices.iter().enumerate() {
            push_if(&mut numbers, self.is_selectable(task, *choice), i as u8);
        }
        numbers
    }

    // The call at the front of the queue of the choice of that number.
    fn front_of_number(&self, task: TaskNo, choices: &[Choice], number: u8) -> Option<u32>
        requires { AreOfTask self.now task.0 choices.now }
        ensures { result ≡ option_and_then (waits.front_of self.now task.0)
            (slice_get choices.now number) }
    {
        match choices.get(number as usize) {
            Some(choice) => self.front_of(task, *choice),
            None => None,
        }
    }

    // The call at the front of the queue of the choice by which a wait with these choices takes a call.
    fn front_picked(&self, task: TaskNo, choices: &[Choice], pick: u32) -> Option<u32>
        requires few { length choices.now ≤ MOST_CHOICES }
        requires declared { AreOfTask self.now task.0 choices.now }
        ensures { result ≡ option_and_then (waits.front_of self.now task.0)
            (option_and_then (slice_get choices.now)
            (waits.picked pick (waits.numbers_from (waits.is_selectable self.now task.0)
            0 choices.now))) }
    {
        match picked(pick, self.selectable(task, choices).as_slice()) {
            Some(number) => self.front_of_number(task, choices, number),
            None => None,
        }
    }

    // The call that a wait with these choices takes. Most waits have one choice.
    #[tactic(auto, using(crate::proofs::Choosing::one_front))]
    fn taken_call(&self, task: TaskNo, choices: &[Choice], pick: u32) -> Option<u32>
        requires few { length choices.now ≤ MOST_CHOICES }
        requires declared { AreOfTask self.now task.0 choices.now }
        ensures { result ≡ option_and_then (waits.front_of self.now task.0)
            (option_and_then (slice_get choices.now)
            (waits.picked pick (waits.numbers_from (waits.is_selectable self.now task.0)
            0 choices.now))) }
    {
        match choices.split_first() {
            Some((choice, rest)) if rest.is_empty() => self.front_of(task, *choice),
            _ => self.front_picked(task, choices, pick),
        }
    }

    // The call that the event takes, where it is a wait that takes one.
    #[tactic(auto, unfolding(ada_events::specs::Forced::met_at, ada_events::specs::Waits::taken_call, ada_events::specs::Waits::taken_choice, ada_events::specs::Says::wait_in, ada_events::specs::Says::held_in))]
    fn meeting(&self, at: u32, event: &Event) -> Option<u32>
        requires { event_at self.now at ≡ Some event.now }
        ensures { option_map (λ call. step.Met call at) result
            ≡ at_event self.now row.Meeting at event.now }
    {
        match event {
            Event::Waiting {
                by,
                pick,
                choices,
                ..
            } => {
                if self.is_pending(at, *by) {
                    self.taken_call(*by, choices.as_slice(), *pick)
                } else {
                    None
                }
            }
            _ => None,
        }
    }

    /// The call that the wait at the position takes, if there is one (9.5, 9.7.1): the one at the front of the queue of
    /// the open choice that its pick chooses among those with a call.
    #[tactic(auto, unfolding(ada_step_laws::specs::Rows::step_at))]
    pub fn meets(&self, at: u32) -> Option<u32>
        ensures { step_at self.now row.Meeting at ≡ option_map (λ call. step.Met call at) result }
    {
        match self.event(at) {
            Some(event) => self.meeting(at, event),
            None => None,
        }
    }

    // The number of the choice by which a wait with these choices takes a call; 0 where it takes none. Where there is
    // one choice it isn't asked whether a call waits for it.
    #[inline(always)]
    #[tactic(auto, using(crate::proofs::Choosing::one_picked))]
    fn number_taken(&self, task: TaskNo, choices: &[Choice], pick: u32) -> u8
        requires few { length choices.now ≤ MOST_CHOICES }
        requires declared { AreOfTask self.now task.0 choices.now }
        ensures { result ≡ unwrap_or (waits.picked pick
            (waits.numbers_from (waits.is_selectable self.now task.0) 0 choices.now)) 0 }
    {
        match choices.split_first() {
            Some((_, rest)) if rest.is_empty() => 0,
            _ => picked(pick, self.selectable(task, choices).as_slice()).unwrap_or(0),
        }
    }

    /// The number of the choice by which the wait at the position takes a call (9.7.1), counted over all of its choices
    /// from 0; 0 where it takes none.
    #[inline(always)]
    #[tactic(auto, unfolding(ada_events::specs::Outcomes::choice_met, ada_events::specs::Waits::taken_choice, ada_events::specs::Says::wait_in))]
    pub fn choice_met(&self, wait: u32) -> u8
        ensures { result ≡ outcomes.choice_met self.now wait }
    {
        match self.event(wait) {
            Some(
                Event::Waiting {
                    by,
                    pick,
                    choices,
                    ..
                },
            ) => self.number_taken(*by, choices.as_slice(), *pick),
            _ => 0,
        }
    }

    // The way in which the event ends, where it is a wait that ends otherwise than by a call.
    #[tactic(auto, unfolding(ada_events::specs::Forced::passed_at, ada_events::specs::Says::wait_in, ada_events::specs::Says::held_in))]
    fn passing(&self, at: u32, event: &Event) -> Option<Way>
        requires { event_at self.now at ≡ Some event.now }
        ensures { option_map (step.Passed at) result ≡ at_event self.now row.Passing at event.now }
    {
        match event {
            Event::Waiting {
                by,
                pick,
                choices,
                tail,
            } => {
                if self.is_pending(at, *by) {
                    way_of(self.moment(), choices.as_slice(), *pick, tail)
                } else {
                    None
                }
            }
            _ => None,
        }
    }

    /// The way in which the wait at the position ends otherwise than by a call, if it does (9.7.1): by its else part,
    /// by a delay alternative whose moment has come, or by PROGRAM_ERROR where no alternative is open.
    #[tactic(auto, unfolding(ada_step_laws::specs::Rows::step_at))]
    pub fn passes(&self, at: u32) -> Option<Way>
        ensures { step_at self.now row.Passing at ≡ option_map (step.Passed at) result }
    {
        match self.event(at) {
            Some(event) => self.passing(at, event),
            None => None,
        }
    }
}
