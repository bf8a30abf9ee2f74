//! Following a schedule from its beginning.
ghost use Rattle.std.specs.Prelude.{◌≡◌, IfOk, reverse};
ghost use Rattle.ada_schedules.specs.Schedules.{Comes, beginning};
ghost use Rattle.ada_search.specs.Findings.{at};

use crate::{Halt, Schedules, Standing};
use ada_kernel::Kernel;
use std::alloc::Global;

/// The beginning of all schedules.
pub fn begin<S: Schedules>(alloc: Global, space: &S) -> Result<Standing<S::Rest>, Halt>
    ensures { IfOk result (λ begun. at begun.kernel begun.rest ≡ beginning (S.told space.now)) }
{
    let kernel = Kernel::new(alloc).map_err(|_| Halt::Memory)?;
    let rest = space.start()?;
    Ok(Standing { kernel, rest })
}

/// A copy of where a schedule has come to, which goes on by itself.
pub fn copy_of<S: Schedules>(
    alloc: Global,
    space: &S,
    standing: &Standing<S::Rest>,
) -> Result<Standing<S::Rest>, Halt>
    ensures { IfOk result (λ copy. at copy.kernel copy.rest
        ≡ at standing.now.kernel standing.now.rest) }
{
    let kernel = standing.kernel.copy(alloc).map_err(|_| Halt::Memory)?;
    let rest = space.copy(&standing.rest)?;
    Ok(Standing { kernel, rest })
}

/// Where a schedule comes to: these choices, one after another, on a new kernel. An `Err` says why it doesn't go on at
/// one of them.
pub fn follow<S: Schedules>(
    alloc: Global,
    space: &S,
    path: &[S::Choice],
) -> Result<Standing<S::Rest>, Halt>
    ensures { IfOk result (λ end. Comes (S.told space.now) (reverse path.now)
        (at end.kernel end.rest)) }
{
    let mut standing = begin(alloc, space)?;
    for choice in path {
        space.take(&mut standing, *choice)?;
    }
    Ok(standing)
}
