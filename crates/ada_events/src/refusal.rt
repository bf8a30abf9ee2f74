//! Why a request is refused.

ghost use Rattle.std.specs.Prelude.{◌≡◌};
ghost use Rattle.ada_events.specs.RefusalNames.{refusal_name};
ghost use Rattle.ada_events.specs.declared.refusal.Refusal.TheVariants as refusals;

use std::alloc::AllocError;
use thiserror::Error;

/// The cause for which a request is refused. The causes are checked in this order, and the first
/// that applies is answered; `OutOfMemory` only where none of the others does.
#[derive(Clone, Copy, Debug, PartialEq, Eq, Error)]
#[error("{}", self.name())]
pub enum Refusal {
    /// The asking task, the callee, a listed task or the task of a master doesn't exist.
    UnknownTask,
    /// The asking task isn't running.
    NotRunning,
    /// A wait, end or completion by a task that is still being activated (9.3).
    DuringActivation,
    /// The end of an activation by a task that has ended it already, or by the main program (9.3).
    NotActivating,
    /// A creation under a master that the asking task is neither in nor depends on (9.4).
    NotYourMaster,
    /// A list of tasks or of delay alternatives is empty (9.7.1, 9.10).
    EmptyList,
    /// An activation of a task that the asking task didn't make, that an activation named before,
    /// or that is listed twice (9.3).
    NotYourTask,
    /// A wait has no accept alternative (9.7.1).
    NoAccept,
    /// The family of a call or of any accept alternative isn't declared (9.5).
    NoSuchFamily,
    /// The index of a call or of an open accept alternative lies outside its family's range (9.5).
    ConstraintError,
    /// An accept alternative, open or closed, for the family of a rendezvous that the task is
    /// within (9.5).
    SameFamilyNested,
    /// A terminate alternative, open or closed, within a rendezvous (9.7.1).
    TerminateInAccept,
    /// An end while the task is in no rendezvous, or in a block within it (9.5).
    NotInAccept,
    /// A close while the task is in no block, or in a rendezvous within it (9.4).
    NoBlock,
    /// A completion, or the end of an activation, within a block or a rendezvous (9.4).
    StillNested,
    /// An abort of the main program (9.10).
    MainTask,
    /// A tick to a moment before the present one (9.6).
    MomentBack,
    /// A tick, or the due moment of a timed call, a delay or an open delay alternative, above
    /// 9,000,000,000,000 milliseconds (9.6).
    MomentTooLarge,
    /// A creation while there are 256 tasks, the main program and those that are gone counted.
    TooManyTasks,
    /// A creation with which there would be more than 1,024 entries over all tasks.
    TooManySlots,
    /// An opening or a wait within 32 blocks and rendezvous.
    TooDeep,
    /// The journal of 65,536 events hasn't room for the 769 that one request may append.
    JournalFull,
    /// Memory was refused, and no other cause applies.
    OutOfMemory,
}

impl Refusal {
    /// The name of this refusal, as a script prints it.
    pub fn name(self) -> &'static str
        ensures { result.now ≡ refusal_name self }
    {
        match self {
            Refusal::UnknownTask => "UnknownTask",
            Refusal::NotRunning => "NotRunning",
            Refusal::DuringActivation => "DuringActivation",
            Refusal::NotActivating => "NotActivating",
            Refusal::NotYourMaster => "NotYourMaster",
            Refusal::EmptyList => "EmptyList",
            Refusal::NotYourTask => "NotYourTask",
            Refusal::NoAccept => "NoAccept",
            Refusal::NoSuchFamily => "NoSuchFamily",
            Refusal::ConstraintError => "ConstraintError",
            Refusal::SameFamilyNested => "SameFamilyNested",
            Refusal::TerminateInAccept => "TerminateInAccept",
            Refusal::NotInAccept => "NotInAccept",
            Refusal::NoBlock => "NoBlock",
            Refusal::StillNested => "StillNested",
            Refusal::MainTask => "MainTask",
            Refusal::MomentBack => "MomentBack",
            Refusal::MomentTooLarge => "MomentTooLarge",
            Refusal::TooManyTasks => "TooManyTasks",
            Refusal::TooManySlots => "TooManySlots",
            Refusal::TooDeep => "TooDeep",
            Refusal::JournalFull => "JournalFull",
            Refusal::OutOfMemory => "OutOfMemory",
        }
    }
}

impl From<AllocError> for Refusal {
    ghost from_gives = { λ _ refusal. refusal ≡ refusals.OutOfMemory };

    fn from(_: AllocError) -> Self {
        Refusal::OutOfMemory
    }
}
