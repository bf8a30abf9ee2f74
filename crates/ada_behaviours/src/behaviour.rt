//! What the tasks of a program do, as code.

ghost use Rattle.std.specs.Prelude.{◌≡◌, ◌≤◌, ℕ, true, IfOk, OnOk};
ghost use Rattle.ada_behaviours.specs.declared.want.Want.TheVariants as want;

use crate::{ObjectNo, Want};
use ada_events::{Outcome, Refusal};
use ada_search::{Halt, KeyWriter};
use std::alloc::{AllocError, Global};

/// What the tasks of a program do. After an `Err` of a method that changes the state nothing is known of that.
pub trait Behaviour {
    ghost use Rattle.ada_behaviours.specs.Behaviours.{Behaviour as Told};

    /// What all task objects have still to do, with the variables of the program. Two states that are the same are
    /// equal: so what lies in a `Vec` is in a struct that contracts see as a list, and not by its address.
    type State: Drop;

    /// What its tasks do.
    ghost told: { Self → Told Self.State };

    /// How many task objects it has, the main program counted.
    fn objects(&self) -> u16
        ensures { result ≡ (told self.now).objects };

    /// What is to be done at the beginning.
    fn start(&self, alloc: Global) -> Result<Self::State, Halt>
        ensures { IfOk result (λ state. state ≡ (told self.now).start) };

    /// A copy of a state, in memory of `alloc`.
    fn copy(&self, alloc: Global, state: &Self::State) -> Result<Self::State, Halt>
        ensures { IfOk result (λ copy. copy ≡ state.now) };

    /// Whether two states are the same; perhaps not told of some that are.
    fn is_same(&self, state: &Self::State, other: &Self::State) -> bool
        ensures { result ≡ true → state.now ≡ other.now };

    /// Writes what tells a state from others into a key. Nothing is promised of it: the same is to be written for
    /// states that are the same, and mostly something else for others.
    fn write_key(&self, state: &Self::State, key: &mut KeyWriter<'_, '_>) -> Result<(), AllocError>;

    /// What an object wants next, with a pick.
    fn wants(
        &self,
        alloc: Global,
        state: &Self::State,
        object: ObjectNo,
        pick: u32,
    ) -> Result<Want, Halt>
        ensures { IfOk result (λ wanted.
            wanted ≡ (told self.now).wants state.now object.0 pick) };

    /// A number above each pick with which an object wants anything.
    fn picks(&self, state: &Self::State, object: ObjectNo) -> u32
        ensures { (pick : ℕ) → result ≤ pick
            → (told self.now).wants state.now object.0 pick ≡ want.Nothing };

    /// The request of an object was accepted, and it waits for the kernel's answer.
    fn accept(&self, state: &mut Self::State, object: ObjectNo, pick: u32) -> Result<(), Halt>
        ensures { OnOk result
            (state.new ≡ (told self.now).accepted state.old object.0 pick) };

    /// It was refused.
    fn refuse(
        &self,
        state: &mut Self::State,
        object: ObjectNo,
        pick: u32,
        cause: Refusal,
    ) -> Result<(), Halt>
        ensures { OnOk result
            (state.new ≡ (told self.now).refused state.old object.0 pick cause) };

    /// The question of an object has this answer.
    fn answer(&self, state: &mut Self::State, object: ObjectNo, answer: u16) -> Result<(), Halt>
        ensures { OnOk result
            (state.new ≡ (told self.now).answered state.old object.0 answer) };

    /// The task of an object runs, and this is its outcome: in it the number of an object stands for its call.
    fn let_go(
        &self,
        state: &mut Self::State,
        object: ObjectNo,
        outcome: Outcome,
    ) -> Result<(), Halt>
        ensures { OnOk result
            (state.new ≡ (told self.now).let_go state.old object.0 outcome) };

    /// The task of an object is terminated.
    fn end(&self, state: &mut Self::State, object: ObjectNo) -> Result<(), Halt>
        ensures { OnOk result (state.new ≡ (told self.now).ended state.old object.0) };

    /// Whether the task of an object may still be named.
    fn names(&self, state: &Self::State, object: ObjectNo) -> bool
        ensures { result ≡ (told self.now).names state.now object.0 };
}
