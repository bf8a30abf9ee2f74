//! What the statements of a script ask of a kernel.
ghost use Rattle.std.specs.Prelude.{◌≡◌, false, Some};
ghost use Rattle.ada_events.specs.declared.request.Request.{Request as RequestValue};
ghost use Rattle.ada_replay.specs.internal.Asking.{IsAnswer};
ghost use Rattle.ada_statements.specs.Binding.{is_show, request_of};

use ada_events::{Refusal, Request};
use ada_kernel::Kernel;
use ada_script::{Names, RequestSink, Statement, send};

/// A kernel of which requests are made.
#[derive(Drop)]
struct KernelSink<'a> {
    kernel: &'a mut Kernel,
}

impl RequestSink for KernelSink<'_> {
    type Answer = Result<u32, Refusal>;

    ghost answers = { λ before request answer after.
        (after.kernel.ghost_name ≡ before.kernel.ghost_name)
        × IsAnswer before.kernel.now request answer after.kernel.now };

    // Inlined, so that a request whose kind is known there needn't lie in memory.
    #[inline(always)]
    fn take(&mut self, request: Request) -> Result<u32, Refusal> {
        self.kernel.step(request)
    }
}

/// Makes the request of a statement that shows no attribute, and gives the kernel's answer.
pub fn send_to_kernel(
    kernel: &mut Kernel,
    statement: &Statement,
    names: &Names,
) -> Result<u32, Refusal>
    requires { is_show statement.now ≡ false }
    ensures { (request : RequestValue) × (Some request ≡ request_of names.now statement.now)
        × IsAnswer kernel.old request result kernel.new }
{
    send(statement, names, &mut KernelSink { kernel })
}
