//! What tasks do, told without the names that a kernel gives them: each task object has a number of its own. Whatever
//! is told so is a program over the kernel that speaks in names, so a search of finitely many states can speak of all
//! its schedules. The law is the contract of a function that does nothing.
//!
//! Section numbers are those of the Ada 83 manual, ANSI/MIL-STD-1815A.
#![tactic(auto)]

ghost use Rattle.ada_behaviours.specs.Laws.{BehavioursSpeakInNames};

pub mod behaviour;
pub mod want;

pub use behaviour::Behaviour;
pub use want::{Action, Move, ObjectNo, Objects, Question, Want};

/// A behaviour names tasks and blocks by their names alone: in a journal that stands in for another one, each move asks
/// for the same there, under its names, and what is left to do afterwards is the same again.
pub fn behaviours_speak_in_names<State>()
    ensures { BehavioursSpeakInNames State }
{}
