//! The kernel of a host, of either kind.

use ada_kernel::Kernel;
use ada_lasting::LongKernel;

/// The kernel of a host.
#[derive(Drop)]
pub enum HostKernel {
    /// It keeps everything.
    Whole(Kernel),
    /// It lives on.
    Lasting(LongKernel),
}
