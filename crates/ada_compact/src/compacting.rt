//! A kernel with a shorter journal in place of another kernel.

ghost use Rattle.std.specs.Prelude.{◌≡◌, IfOk, true};
ghost use Rattle.std.specs.List.{list_all};
ghost use Rattle.ada_compact.specs.Kept.{AreNamed};
ghost use Rattle.ada_compact.specs.internal.Keeping.{is_named};
ghost use Rattle.ada_events.specs.declared.names.TaskNo.{TaskNo as Number};
ghost use Rattle.ada_events.specs.Lawful.{IsLawful, IsSettled};
ghost use Rattle.ada_standing.specs.Names.{renaming_of};
ghost use Rattle.ada_standing.specs.StandsIn.{StandsIn};

use crate::comparison::Comparison;
use crate::failure::NotCompacted;
use crate::walk::{Compacted, shorten};
use ada_events::TaskNo;
use ada_kernel::Kernel;
use ada_standing::Renaming;
use std::alloc::Global;

/// Whether the journal of a new kernel stands in for that of an old one, with these names. It is found by what the
/// kernels keep of their journals, with no search of them.
pub fn stands_in(old: &Kernel, new: &Kernel, names: &Renaming) -> bool
    ensures { result ≡ true → StandsIn old.now new.now (renaming_of names.now) }
{
    let comparison = Comparison {
        old: old.view(),
        new: new.view(),
        names,
    };
    comparison.stands_in()
}

// Whether each of the tasks that the kernel has may still be named.
fn are_named(kernel: &Kernel, tasks: &[TaskNo], names: &Renaming) -> bool
    ensures { result ≡ list_all (λ (t : Number).
        is_named kernel.now (renaming_of names.now) t.0) tasks.now }
{
    tasks.iter().all(|task| task.0 >= kernel.tasks() || names.task(*task).is_some())
}

/// A second kernel whose journal stands in for that of a first one, and the names that lead to it. Its journal was made
/// by requests, and is about as long as what still matters of the first one. Each task that isn't terminated may still
/// be named, and of the terminated ones those that are kept. The memory of the second kernel is of `alloc`.
///
/// # Errors
///
/// [`NotCompacted::NoRoom`] if tasks that are gone have to be replaced by helpers, up to three for a live task and two
/// more, and there is no room for them; [`NotCompacted::OutOfMemory`]. In each case nothing has changed.
pub fn compact(alloc: Global, kernel: &Kernel, kept: &[TaskNo]) -> Result<Compacted, NotCompacted>
    ensures stands { IfOk result (λ compacted.
        StandsIn kernel.now compacted.kernel (renaming_of compacted.names)) }
    ensures kept { IfOk result (λ compacted.
        AreNamed kernel.now (renaming_of compacted.names) kept.now) }
    ensures lawful { IfOk result (λ compacted. IsLawful compacted.kernel) }
    ensures settled { IfOk result (λ compacted. IsSettled compacted.kernel) }
{
    let compacted = shorten(alloc, kernel, kept)?;
    let _journal = compacted.kernel.journal();
    if !stands_in(kernel, &compacted.kernel, &compacted.names) {
        return Err(NotCompacted::NotAlike);
    }
    if !are_named(kernel, kept, &compacted.names) {
        return Err(NotCompacted::NotAlike);
    }
    Ok(compacted)
}
