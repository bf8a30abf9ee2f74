//! The check of what was met: whether one state stands in for another, and each choice leads to what is covered.

ghost use Rattle.std.specs.Prelude.{◌≡◌, ◌+◌, List, true, length, reverse, IfOk, IfSome};
ghost use Rattle.ada_standing.specs.Names.{renaming_of};
ghost use Rattle.ada_standing.specs.Renaming.{Renaming as Naming};
ghost use Rattle.ada_standing.specs.StandsIn.{StandsIn};
ghost use Rattle.ada_schedules.specs.Schedules.{beginning, Comes, Reaches};
ghost use Rattle.ada_search.specs.Findings.{at};
ghost use Rattle.ada_search.specs.internal.Covering.{AreCovering, AreDone, AreKept, IsBegun};
ghost use Rattle.ada_search.specs.internal.Covering.{IsDone, LeadOn, LeadsOnAfter};

use crate::guess::guess;
use crate::key::key_of;
use crate::states::{Schedule, States};
use crate::{Halt, Schedules, Standing, Wish, begin, copy_of};
use ada_compact::stands_in;
use ada_standing::Renaming;
use std::alloc::Global;

/// What is searched, with the beginning of its schedules.
#[derive(Drop)]
pub(crate) struct Check<'a, S: Schedules> {
    alloc: Global,
    space: &'a S,
    first: Standing<S::Rest>,
    ghost begun: { at first.kernel first.rest ≡ beginning (S.told space.now) },
}

impl<'a, S: Schedules> Check<'a, S> {
    /// The check of a program's schedules.
    pub(crate) fn new(alloc: Global, space: &'a S) -> Result<Self, Halt>
        ensures { IfOk result (λ check. check.space.now ≡ space.now) }
    {
        let first = begin(alloc, space)?;
        Ok(Check {
            alloc,
            space,
            first,
        })
    }

    // Where a schedule comes to: these choices, one after another, on a copy of the beginning.
    fn follow(&self, path: &[S::Choice]) -> Result<Standing<S::Rest>, Halt>
        ensures { IfOk result (λ end. Comes (S.told self.now.space.now) (reverse path.now)
            (at end.kernel end.rest)) }
    {
        let mut standing = copy_of(self.alloc, self.space, &self.first)?;
        for choice in path {
            self.space.take(&mut standing, *choice)?;
        }
        Ok(standing)
    }

    // Whether the second standing stands in for the first one, with these names.
    fn is_alike_by(
        &self,
        old: &Standing<S::Rest>,
        new: &Standing<S::Rest>,
        names: &Renaming,
    ) -> bool
        ensures { result ≡ true
            → StandsIn old.now.kernel new.now.kernel (renaming_of names.now)
            × (Reaches (S.told self.now.space.now) (at old.now.kernel old.now.rest)
            → Reaches (S.told self.now.space.now) (at new.now.kernel new.now.rest)
            → S.same self.now.space.now (renaming_of names.now) old.now.rest new.now.rest) }
    {
        self.space.is_same(names, old, new) && stands_in(&old.kernel, &new.kernel, names)
    }

    // Whether the second standing stands in for the first one.
    fn is_alike(&self, old: &Standing<S::Rest>, new: &Standing<S::Rest>) -> Result<bool, Halt>
        ensures { IfOk result (λ alike. alike ≡ true → (names : Naming)
            × StandsIn old.now.kernel new.now.kernel names
            × (Reaches (S.told self.now.space.now) (at old.now.kernel old.now.rest)
            → Reaches (S.told self.now.space.now) (at new.now.kernel new.now.rest)
            → S.same self.now.space.now names old.now.rest new.now.rest)) }
    {
        match guess(self.alloc, self.space, old, new).map_err(|_| Halt::Memory)? {
            Some(names) => Ok(self.is_alike_by(old, new, &names)),
            None => Ok(false),
        }
    }

    // Whether a state that was met stands in for a standing.
    fn is_covered_by(
        &self,
        states: &States<S::Choice>,
        said: &Standing<S::Rest>,
        state: usize,
    ) -> Result<bool, Halt>
        ensures { IfOk result (λ covered. covered ≡ true
            → Reaches (S.told self.now.space.now) (at said.now.kernel said.now.rest)
            → AreCovering (S.told self.now.space.now) (S.same self.now.space.now) states.now
            (at said.now.kernel said.now.rest)) }
    {
        match states.schedule(state) {
            Some(schedule) => {
                let other = self.follow(schedule.choices())?;
                self.is_alike(said, &other)
            }
            None => Ok(false),
        }
    }

    // Whether the state that a key names stands in for a standing.
    fn is_covered(
        &self,
        states: &States<S::Choice>,
        said: &Standing<S::Rest>,
        key: &Vec<u8>,
    ) -> Result<bool, Halt>
        ensures { IfOk result (λ covered. covered ≡ true
            → Reaches (S.told self.now.space.now) (at said.now.kernel said.now.rest)
            → AreCovering (S.told self.now.space.now) (S.same self.now.space.now) states.now
            (at said.now.kernel said.now.rest)) }
    {
        match states.with_key(key) {
            Some(state) => self.is_covered_by(states, said, state),
            None => Ok(false),
        }
    }

    // Meets a standing to which a schedule leads. It stands in for itself, or that isn't found.
    fn meet(
        &self,
        states: &mut States<S::Choice>,
        said: &Standing<S::Rest>,
        schedule: Schedule<S::Choice>,
        key: Vec<u8>,
    ) -> Result<bool, Halt>
        ensures { IfOk result (λ met. met ≡ true
            → Comes (S.told self.now.space.now) (reverse schedule)
            (at said.now.kernel said.now.rest)
            → AreKept states.old states.new
            × AreCovering (S.told self.now.space.now) (S.same self.now.space.now) states.new
            (at said.now.kernel said.now.rest)) }
    {
        if !self.is_alike(said, said)? {
            return Ok(false);
        }
        states.meet(schedule, key)?;
        Ok(true)
    }

    // Whether a state that was met stands in for a standing to which a schedule leads: if none does, that is met.
    fn cover(
        &self,
        states: &mut States<S::Choice>,
        said: &Standing<S::Rest>,
        schedule: Schedule<S::Choice>,
    ) -> Result<bool, Halt>
        ensures { IfOk result (λ covered. covered ≡ true
            → Comes (S.told self.now.space.now) (reverse schedule)
            (at said.now.kernel said.now.rest)
            → AreKept states.old states.new
            × AreCovering (S.told self.now.space.now) (S.same self.now.space.now) states.new
            (at said.now.kernel said.now.rest)) }
    {
        let key = key_of(self.alloc, self.space, said).map_err(|_| Halt::Memory)?;
        if self.is_covered(states, said, &key)? {
            return Ok(true);
        }
        self.meet(states, said, schedule, key)
    }

    // Whether a choice, after a schedule, leads to what is covered.
    fn cover_choice(
        &self,
        states: &mut States<S::Choice>,
        path: &[S::Choice],
        standing: &Standing<S::Rest>,
        choice: S::Choice,
    ) -> Result<bool, Halt>
        requires { Comes (S.told self.now.space.now) (reverse path.now)
            (at standing.now.kernel standing.now.rest) }
        ensures { IfOk result (λ covered. covered ≡ true → AreKept states.old states.new
            × LeadsOnAfter (S.told self.now.space.now) (S.same self.now.space.now) states.new
            path.now choice) }
    {
        let mut said = copy_of(self.alloc, self.space, standing)?;
        self.space.take(&mut said, choice)?;
        let schedule = Schedule::longer(self.alloc, path, choice)?;
        self.cover(states, &said, schedule)
    }

    // Whether each of some choices does.
    fn cover_choices(
        &self,
        states: &mut States<S::Choice>,
        path: &[S::Choice],
        standing: &Standing<S::Rest>,
        choices: &[S::Choice],
    ) -> Result<bool, Halt>
        requires { Comes (S.told self.now.space.now) (reverse path.now)
            (at standing.now.kernel standing.now.rest) }
        ensures { IfOk result (λ covered. covered ≡ true
            → LeadOn (S.told self.now.space.now) (S.same self.now.space.now) states.old states.new
            path.now choices.now (length choices.now)) }
    {
        for choice in choices {
            if !self.cover_choice(states, path, standing, *choice)? {
                return Ok(false);
            }
        }
        Ok(true)
    }

    // Whether what a schedule leads to is as is wanted, and each choice that may come leads to what is covered.
    fn go_on<P: Wish<S>>(
        &self,
        wish: &P,
        states: &mut States<S::Choice>,
        path: &[S::Choice],
    ) -> Result<bool, Halt>
        ensures { IfOk result (λ done. done ≡ true → AreKept states.old states.new
            × IsDone (S.told self.now.space.now) (S.same self.now.space.now)
            (P.well wish.now self.now.space.now) states.new path.now) }
    {
        let standing = self.follow(path)?;
        let _journal = standing.kernel.journal();
        if !wish.is_met(self.space, &standing)? {
            return Ok(false);
        }
        let choices = self.space.choices(&standing)?;
        self.cover_choices(states, path, &standing, &choices)
    }

    /// The same of the schedule of a state.
    pub(crate) fn go_on_from<P: Wish<S>>(
        &self,
        wish: &P,
        states: &mut States<S::Choice>,
        state: usize,
    ) -> Result<bool, Halt>
        ensures { IfOk result (λ done. done ≡ true → (start : List S.Choice)
            → AreDone (S.told self.now.space.now) (S.same self.now.space.now)
            (P.well wish.now self.now.space.now) start
            states.old state
            → AreDone (S.told self.now.space.now) (S.same self.now.space.now)
            (P.well wish.now self.now.space.now) start
            states.new (state + 1)) }
    {
        let Some(schedule) = states.schedule(state) else {
            return Ok(false);
        };
        let path = schedule.copy(self.alloc)?;
        self.go_on(wish, states, path.choices())
    }

    /// What a schedule leads to alone, if that stands in for itself.
    pub(crate) fn begin_at(&self, start: &[S::Choice]) -> Result<Option<States<S::Choice>>, Halt>
        ensures { IfOk result (λ begun. IfSome begun (λ states.
            IsBegun (S.told self.now.space.now) (S.same self.now.space.now) start.now states)) }
    {
        let mut states = States::new(self.alloc);
        let standing = self.follow(start)?;
        let schedule = Schedule::of(self.alloc, start)?;
        if self.cover(&mut states, &standing, schedule)? {
            Ok(Some(states))
        } else {
            Ok(None)
        }
    }
}
