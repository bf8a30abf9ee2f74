//! Who is told of the refused lines of a play.

use ada_events::Refusal;
use ada_kernel::Kernel;
use ada_script::{Line, Names, Statement};
use std::alloc::AllocError;

/// A line that was refused, when it was.
#[derive(Clone, Copy)]
pub struct Refused<'a> {
    /// The kernel that refused it, as it stands then.
    pub kernel: &'a Kernel,
    /// The names of its script, with what they are bound to then.
    pub names: &'a Names,
    /// The lines of its script; none where it stands in no script.
    pub lines: &'a [Line],
    pub statement: &'a Statement,
    pub cause: Refusal,
}

/// Who is told of each line of a play that is refused, while the kernel that refused it stands there.
pub trait Witness {
    /// Takes note of a refused line. An `Err` says that memory was refused.
    fn note(&mut self, refused: Refused<'_>) -> Result<(), AllocError>;
}

/// Takes note of nothing.
#[derive(Drop)]
pub(crate) struct Nobody;

impl Witness for Nobody {
    fn note(&mut self, _refused: Refused<'_>) -> Result<(), AllocError> {
        Ok(())
    }
}
