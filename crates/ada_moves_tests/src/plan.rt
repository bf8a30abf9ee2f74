//! A main program that makes two tasks, Ann and Bob. Ann calls Bob, and Bob accepts one call, calls Ann, or delays
//! himself.

ghost use Rattle.std.specs.Prelude.{◌≡◌};
ghost use Rattle.ada_moves_tests.specs.Plans as plans;

use ada_behaviours::{Action, Behaviour, ObjectNo, Objects, Want};
use ada_events::{Choice, Choices, Entry, Families, Family, Outcome, Patience, Refusal, Tail};
use ada_search::{Halt, KeyWriter};
use std::alloc::{AllocError, Global};

/// How far an object has come.
#[derive(Clone, Copy, Debug, PartialEq, Eq)]
pub struct Place {
    /// The number of its action.
    pub step: u8,
    /// Whether its request was accepted, and it waits for the answer.
    pub waits: bool,
}

/// How far each of them has come.
#[derive(Clone, Copy, Debug, Drop, PartialEq, Eq)]
pub struct Places {
    pub main: Place,
    pub ann: Place,
    pub bob: Place,
}

/// What Bob does.
#[derive(Clone, Copy, Debug, PartialEq, Eq)]
pub enum Bob {
    /// He accepts one call.
    Accepts,
    /// He calls Ann.
    Calls,
    /// He delays himself for a second.
    Pauses,
}

/// What the tasks do.
#[derive(Clone, Copy, Debug, Drop, PartialEq, Eq)]
pub struct Plan {
    pub bob: Bob,
}

/// The entry that both tasks have.
const ENTRY: Entry = Entry {
    family: 0,
    index: 0,
};

// The place after a place.
fn next(place: Place) -> Place
    ensures { result ≡ plans.next place }
{
    Place {
        step: place.step.saturating_add(1),
        waits: false,
    }
}

// The place of an object.
fn place_of(places: &Places, object: ObjectNo) -> Place
    ensures { result ≡ plans.place_of places.now object.0 }
{
    if object.0 == 0 {
        places.main
    } else if object.0 == 1 {
        places.ann
    } else {
        places.bob
    }
}

// Moves an object to a place.
fn put(places: &mut Places, object: ObjectNo, place: Place)
    ensures { places.new ≡ plans.put places.old object.0 place }
{
    if object.0 == 0 {
        places.main = place;
    } else if object.0 == 1 {
        places.ann = place;
    } else {
        places.bob = place;
    }
}

// The making of a task with one entry.
fn creation(object: u16) -> Want
    ensures { result ≡ plans.creation object }
{
    Want::Act(Action::Create {
        object: ObjectNo(object),
        families: Families::from_slice(&[Family { low: 0, high: 0 }]),
    })
}

// The start of both tasks.
fn start() -> Want
    ensures { result ≡ plans.start }
{
    Want::Act(Action::Activate {
        objects: Objects::from_slice(&[ObjectNo(1), ObjectNo(2)]),
    })
}

// What the main program wants.
fn main_wants(step: u8) -> Want
    ensures { result ≡ plans.main_wants step }
{
    if step == 0 {
        creation(1)
    } else if step == 1 {
        creation(2)
    } else if step == 2 {
        start()
    } else if step == 3 {
        Want::Act(Action::Complete)
    } else {
        Want::Nothing
    }
}

// What a task wants that calls another one.
fn caller_wants(step: u8, callee: u16) -> Want
    ensures { result ≡ plans.caller_wants step callee }
{
    if step == 0 {
        Want::Act(Action::Elaborated { ok: true })
    } else if step == 1 {
        Want::Act(Action::Call {
            callee: ObjectNo(callee),
            entry: ENTRY,
            patience: Patience::Simple,
        })
    } else if step == 2 {
        Want::Act(Action::Complete)
    } else {
        Want::Nothing
    }
}

// An accept statement.
fn acceptance() -> Want
    ensures { result ≡ plans.acceptance }
{
    Want::Act(Action::Wait {
        choices: Choices::from_slice(&[Choice {
            guard: true,
            entry: ENTRY,
        }]),
        tail: Tail::Nothing,
    })
}

// What a task wants that accepts one call.
fn server_wants(step: u8) -> Want
    ensures { result ≡ plans.server_wants step }
{
    if step == 0 {
        Want::Act(Action::Elaborated { ok: true })
    } else if step == 1 {
        acceptance()
    } else if step == 2 {
        Want::Act(Action::End { raised: false })
    } else if step == 3 {
        Want::Act(Action::Complete)
    } else {
        Want::Nothing
    }
}

// What a task wants that delays itself for a second.
fn sleeper_wants(step: u8) -> Want
    ensures { result ≡ plans.sleeper_wants step }
{
    if step == 0 {
        Want::Act(Action::Elaborated { ok: true })
    } else if step == 1 {
        Want::Act(Action::Delay { duration: 1000 })
    } else if step == 2 {
        Want::Act(Action::Complete)
    } else {
        Want::Nothing
    }
}

// What Bob wants.
fn bob_wants(bob: Bob, step: u8) -> Want
    ensures { result ≡ plans.bob_wants bob step }
{
    match bob {
        Bob::Accepts => server_wants(step),
        Bob::Calls => caller_wants(step, 1),
        Bob::Pauses => sleeper_wants(step),
    }
}

impl Plan {
    // What an object wants at a step.
    fn planned(&self, object: ObjectNo, step: u8) -> Want
        ensures { result ≡ plans.planned self.now.bob object.0 step }
    {
        if object.0 == 0 {
            main_wants(step)
        } else if object.0 == 1 {
            caller_wants(step, 2)
        } else {
            bob_wants(self.bob, step)
        }
    }
}

impl Behaviour for Plan {
    ghost use Rattle.ada_moves_tests.specs.Plans as plans;

    type State = Places;

    ghost told = { λ plan. plans.behaves plan.bob };

    fn objects(&self) -> u16 {
        3
    }

    fn start(&self, _alloc: Global) -> Result<Places, Halt> {
        let place = Place {
            step: 0,
            waits: false,
        };
        Ok(Places {
            main: place,
            ann: place,
            bob: place,
        })
    }

    fn copy(&self, _alloc: Global, state: &Places) -> Result<Places, Halt> {
        Ok(*state)
    }

    fn is_same(&self, state: &Places, other: &Places) -> bool {
        *state == *other
    }

    fn write_key(&self, state: &Places, key: &mut KeyWriter<'_, '_>) -> Result<(), AllocError> {
        for place in [state.main, state.ann, state.bob] {
            key.byte(place.step)?;
            key.byte(u8::from(place.waits))?;
        }
        Ok(())
    }

    fn wants(
        &self,
        _alloc: Global,
        state: &Places,
        object: ObjectNo,
        pick: u32,
    ) -> Result<Want, Halt> {
        let place = place_of(state, object);
        if pick > 0 || place.waits {
            return Ok(Want::Nothing);
        }
        Ok(self.planned(object, place.step))
    }

    fn picks(&self, _state: &Places, _object: ObjectNo) -> u32 {
        1
    }

    fn accept(&self, state: &mut Places, object: ObjectNo, _pick: u32) -> Result<(), Halt> {
        let step = place_of(state, object).step;
        put(state, object, Place { step, waits: true });
        Ok(())
    }

    fn refuse(
        &self,
        state: &mut Places,
        object: ObjectNo,
        _pick: u32,
        _cause: Refusal,
    ) -> Result<(), Halt> {
        let place = place_of(state, object);
        put(state, object, next(place));
        Ok(())
    }

    fn answer(&self, _state: &mut Places, _object: ObjectNo, _answer: u16) -> Result<(), Halt> {
        Ok(())
    }

    fn let_go(&self, state: &mut Places, object: ObjectNo, _outcome: Outcome) -> Result<(), Halt> {
        let place = place_of(state, object);
        if place.waits {
            put(state, object, next(place));
        }
        Ok(())
    }

    fn end(&self, _state: &mut Places, _object: ObjectNo) -> Result<(), Halt> {
        Ok(())
    }

    fn names(&self, _state: &Places, _object: ObjectNo) -> bool {
        true
    }
}
