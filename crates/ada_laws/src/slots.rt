//! Laws of slots and queues (9.5, 9.9).
ghost use Rattle.ada_laws.specs.Slots.{SlotsAreFew, QueuesAreShort, QueuesHoldOneCallOfEach, SlotsAreNumbered, SlotsAreOfTasks, EntriesStandAtTheirSlots};
ghost use Rattle.ada_laws.specs.Slots.{SlotsAreOfTheirEntries, SlotsAreFilled, DeclaredEntriesHaveSlots, SlotsAreInOrder};

/// A lawful journal has at most 1,024 entries over all tasks.
#[tactic(auto, using(crate::proofs::entries::SlotLaws::slots_are_few))]
pub fn slots_are_few()
    ensures { SlotsAreFew }
{}

/// In a lawful journal at most 256 calls are queued at an entry: each is of a task of its own.
#[tactic(auto, using(crate::proofs::queues::Counting::queues_are_short))]
pub fn queues_are_short()
    ensures { QueuesAreShort }
{}

/// In a lawful journal a queue doesn't hold two calls of one task.
pub fn queues_hold_one_call_of_each()
    ensures { QueuesHoldOneCallOfEach }
{}

/// The slots are the numbers below the number of entries.
#[tactic(auto, using(crate::proofs::entries::SlotLaws::slots_are_numbered))]
pub fn slots_are_numbered()
    ensures { SlotsAreNumbered }
{}

/// The entry at a slot is that of a task that exists.
#[tactic(auto, using(crate::proofs::entries::SlotLaws::slots_are_of_tasks))]
pub fn slots_are_of_tasks()
    ensures { SlotsAreOfTasks }
{}

/// A slot and its entry belong together: the entry of a slot stands at it, and the slot of an entry is
/// where it stands. An entry stands at exactly the numbers below the number of entries.
pub fn slots_and_entries_belong_together()
    ensures stand { EntriesStandAtTheirSlots }
    ensures are_of { SlotsAreOfTheirEntries }
    ensures filled { SlotsAreFilled }
{}

/// Exactly the entries that tasks declare have slots: of a task that exists, a family that it declares
/// and an index in that family's range.
#[tactic(auto, using(crate::proofs::entries::SlotPlaces::declared_entries_have_slots))]
pub fn declared_entries_have_slots()
    ensures { DeclaredEntriesHaveSlots }
{}

/// Slots are in order of task, family and index.
pub fn slots_are_in_order()
    ensures { SlotsAreInOrder }
{}
