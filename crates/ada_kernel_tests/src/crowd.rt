//! Kernels with many tasks.

use ada_kernel::Kernel;
use ada_test_requests::{MAIN, SINGLE, activate, create, up};

/// Makes tasks 1 to `last`, each with one entry and under main, activates them in one request, and ends
/// their activations; whether all was accepted.
pub fn make_tasks(kernel: &mut Kernel, last: u16) -> bool {
    let mut accepted = true;
    for _ in 0..last {
        accepted = kernel.step(create(0, MAIN, &[SINGLE])).is_ok() && accepted;
    }
    accepted = kernel.step(activate(0, 1, last)).is_ok() && accepted;
    for task in 1..=last {
        accepted = kernel.step(up(task)).is_ok() && accepted;
    }
    accepted
}
