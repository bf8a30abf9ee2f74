//! Where a schedule has come to.

use ada_kernel::Kernel;

/// Where a schedule of a program has come to.
#[derive(Drop)]
pub struct Standing<Rest> {
    /// The kernel of which the tasks made their requests.
    pub kernel: Kernel,
    /// What is left to do.
    pub rest: Rest,
}
