//! Why the words of a line aren't read.

ghost use Rattle.std.specs.Prelude.{◌≡◌};
ghost use Rattle.ada_script.specs.internal.Fault.{cause_of};
ghost use Rattle.ada_script.specs.declared.fault.Fault.TheVariants as faults;

use ada_statements::Cause;
use std::alloc::AllocError;

/// Why the words of a line aren't read: what is wrong with them, or that a growth was refused.
#[derive(Clone, Copy, Debug, PartialEq, Eq)]
pub enum Fault {
    BadStatement,
    BadNumber,
    UnknownName,
    DoubleName,
    OutOfMemory,
}

impl From<AllocError> for Fault {
    ghost from_gives = { λ _ fault. fault ≡ faults.OutOfMemory };

    fn from(_: AllocError) -> Self {
        Fault::OutOfMemory
    }
}

impl From<Fault> for Cause {
    ghost from_gives = { λ fault cause. cause ≡ cause_of fault };

    fn from(fault: Fault) -> Cause {
        match fault {
            Fault::BadStatement => Cause::BadStatement,
            Fault::BadNumber => Cause::BadNumber,
            Fault::UnknownName => Cause::UnknownName,
            Fault::DoubleName => Cause::DoubleName,
            Fault::OutOfMemory => Cause::OutOfMemory,
        }
    }
}
