//! Laws of the border: what goes over it can be read back. Each law is the contract of a function that does nothing.
ghost use Rattle.ada_border.specs.Codes.{AreChecked, AreNumbered};
ghost use Rattle.ada_border.specs.Events.{AreReadBack};
ghost use Rattle.ada_border.specs.Outcomes.{AreOutcomesReadBack};

/// An event is told whole by its numbers and its lists.
pub fn events_are_read_back()
    ensures { AreReadBack }
{}

/// Each cause has a code of its own, and none is left out: from 1 they are those of the list `causes`.
pub fn causes_are_numbered()
    ensures { AreNumbered }
{}

/// The causes that are checked are those of the codes 1 to 22, in the order of their codes.
pub fn causes_are_checked_by_code()
    ensures { AreChecked }
{}

/// An outcome is told whole by its numbers.
pub fn outcomes_are_read_back()
    ensures { AreOutcomesReadBack }
{}
