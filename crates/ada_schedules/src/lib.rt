//! All schedules of a program over a kernel, and closed sets of states: no schedule leaves one of these, but for names.
//! So a search of finitely many states can speak of schedules of any length. Each law is the contract of a function
//! that does nothing.
//!
//! Section numbers are those of the Ada 83 manual, ANSI/MIL-STD-1815A.
#![tactic(auto)]

ghost use Rattle.ada_schedules.specs.Laws.{ClosedSetsCoverAll, ClosedSetsCoverWhatFollows};
ghost use Rattle.ada_schedules.specs.Laws.{FirstTickAlike, NoScheduleGetsStuck};

/// If a closed set covers what a schedule of a program comes to, it covers whatever that comes to when it goes on: a
/// state of the set stands in for it. The program speaks in names; what is left to do is of any type, and so are
/// choices.
pub fn closed_sets_cover_what_follows<Rest, Choice>()
    ensures { ClosedSetsCoverWhatFollows Rest Choice }
{}

/// Each state that a schedule of a program comes to is covered by a closed set, if the beginning is.
pub fn closed_sets_cover_all<Rest, Choice>()
    ensures { ClosedSetsCoverAll Rest Choice }
{}

/// No schedule gets stuck, however long, if a closed set covers the beginning, and no state of it is stuck.
pub fn no_schedule_gets_stuck<Rest, Choice>()
    ensures { NoScheduleGetsStuck Rest Choice }
{}

/// The first tick that forces anything (9.6) comes at the same moment in a journal that stands in for another one.
pub fn time_passes_alike()
    ensures { FirstTickAlike }
{}
