//! A behaviour, of which all schedules are searched.

use crate::Rest;
use crate::alike::is_same;
use crate::choosing::choices;
use crate::moving::make;
use crate::rest::{begin, copy};
use ada_behaviours::{Behaviour, Move};
use ada_events::Refusal;
use ada_search::{Halt, Kept, KeyWriter, Schedules, Standing};
use ada_standing::Renaming;
use std::alloc::{AllocError, Global};

/// All schedules of a behaviour.
#[derive(Clone, Copy)]
pub struct Space<'a, B> {
    /// The memory in which what is left to do lies.
    pub alloc: Global,
    /// What the tasks do.
    pub behaviour: &'a B,
}

impl<B: Behaviour> Schedules for Space<'_, B> {
    ghost use Rattle.ada_behaviours.specs.Moves.{behaving};
    ghost use Rattle.ada_behaviours.specs.Same.{SameRest};

    type Rest = Rest<B::State>;

    type Choice = Move;

    ghost told = { λ space. behaving (B.told space.behaviour.now) };

    ghost same = { λ _. SameRest };

    fn start(&self) -> Result<Rest<B::State>, Halt> {
        begin(self.alloc, self.behaviour)
    }

    fn copy(&self, rest: &Rest<B::State>) -> Result<Rest<B::State>, Halt> {
        copy(self.alloc, self.behaviour, rest)
    }

    fn choices(&self, standing: &Standing<Rest<B::State>>) -> Result<Vec<Move>, Halt> {
        choices(self.alloc, self.behaviour, &standing.kernel, &standing.rest)
    }

    fn take(
        &self,
        standing: &mut Standing<Rest<B::State>>,
        choice: Move,
    ) -> Result<Option<Refusal>, Halt> {
        make(
            self.alloc,
            self.behaviour,
            &mut standing.kernel,
            &mut standing.rest,
            choice,
        )
    }

    fn is_same(
        &self,
        names: &Renaming,
        old: &Standing<Rest<B::State>>,
        new: &Standing<Rest<B::State>>,
    ) -> bool {
        is_same(self.behaviour, names, &old.rest, &new.rest)
    }

    fn kept(&self, standing: &Standing<Rest<B::State>>) -> Result<Kept, AllocError> {
        let named = standing.rest.named_tasks();
        Kept::of(self.alloc, &standing.kernel, &named, &[])
    }

    fn write_rest(
        &self,
        rest: &Rest<B::State>,
        key: &mut KeyWriter<'_, '_>,
    ) -> Result<(), AllocError> {
        self.behaviour.write_key(&rest.state, key)?;
        rest.write_tasks(key)
    }

    fn speaks(&self) {}
}
