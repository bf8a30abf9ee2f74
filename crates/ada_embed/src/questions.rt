//! Questions, which change nothing.

ghost use Rattle.std.specs.Prelude.{◌≡◌, length};
ghost use Rattle.ada_border.specs.Events.{flag as flag_of};
ghost use Rattle.ada_events.specs.Attributes.{is_finished};
ghost use Rattle.ada_events.specs.Tasks.{task_count};
ghost use Rattle.ada_embed.specs.Answers.{IsBoardOf, IsCountedBy, IsNumberOf, IsToldBy};
ghost use Rattle.ada_embed.specs.Answers.{IsToldByLasting, IsToldByWhole};
ghost use Rattle.ada_embed.specs.Lasting as lasts;
ghost use Rattle.ada_embed.specs.Questions as asked;

use crate::answering::{tell, tell_count, tell_or};
use crate::codes::{KEEPS_ALL, LIVES_ON};
use crate::handle::Handle;
use crate::host_kernel::HostKernel;
use crate::lasting::questions as lasting;
use crate::reasons::PlainReason;
use crate::whole::questions as whole;
use ada_border::boards::{PlainBoard, plain_board};
use ada_border::codes::ACCEPTED;
use ada_border::events::flag;
use ada_border::outcomes::PlainOutcome;

/// How many tasks there are or ever were, the main program counted: the number of the next one.
#[unsafe(no_mangle)]
pub extern "C" fn adatask_tasks(h: &mut Handle) -> u64
    ensures told { IsNumberOf h.old.home task_count result }
    ensures same { h.new.home ≡ h.old.home }
{
    let told = match h.kernel() {
        HostKernel::Whole(kernel) => u64::from(kernel.tasks()),
        HostKernel::Lasting(kernel) => kernel.tasks(),
    };
    told
}

/// How many events there are or ever were: the position of the latest one.
#[unsafe(no_mangle)]
pub extern "C" fn adatask_events(h: &mut Handle) -> u64
    ensures told { IsNumberOf h.old.home length result }
    ensures same { h.new.home ≡ h.old.home }
{
    let told = match h.kernel() {
        HostKernel::Whole(kernel) => u64::from(kernel.journal().len()),
        HostKernel::Lasting(kernel) => kernel.length(),
    };
    told
}

/// Whether the main program is terminated.
#[unsafe(no_mangle)]
pub extern "C" fn adatask_finished(h: &mut Handle) -> u32
    ensures told { IsNumberOf h.old.home (λ journal. flag_of (is_finished journal)) result }
    ensures same { h.new.home ≡ h.old.home }
{
    let told = match h.kernel() {
        HostKernel::Whole(kernel) => flag(kernel.finished()),
        HostKernel::Lasting(kernel) => flag(kernel.finished()),
    };
    told
}

/// Whether a task is running.
#[unsafe(no_mangle)]
pub extern "C" fn adatask_running(h: &mut Handle, task: u64, out: &mut u32) -> i32
    ensures told { IsToldBy h.old.home (λ journal. asked.running_of journal task)
        (lasts.running_of task) result out.old out.new }
    ensures same { h.new.home ≡ h.old.home }
{
    let code = match h.kernel() {
        HostKernel::Whole(kernel) => tell(whole::running(kernel, task), out),
        HostKernel::Lasting(kernel) => tell_or(lasting::running(kernel, task), out),
    };
    code
}

/// The attribute CALLABLE of a task (9.9).
#[unsafe(no_mangle)]
pub extern "C" fn adatask_callable(h: &mut Handle, task: u64, out: &mut u32) -> i32
    ensures told { IsToldBy h.old.home (λ journal. asked.callable_of journal task)
        (lasts.callable_of task) result out.old out.new }
    ensures same { h.new.home ≡ h.old.home }
{
    let code = match h.kernel() {
        HostKernel::Whole(kernel) => tell(whole::callable(kernel, task), out),
        HostKernel::Lasting(kernel) => tell_or(lasting::callable(kernel, task), out),
    };
    code
}

/// The attribute TERMINATED of a task (9.9).
#[unsafe(no_mangle)]
pub extern "C" fn adatask_terminated(h: &mut Handle, task: u64, out: &mut u32) -> i32
    ensures told { IsToldBy h.old.home (λ journal. asked.terminated_of journal task)
        (lasts.terminated_of task) result out.old out.new }
    ensures same { h.new.home ≡ h.old.home }
{
    let code = match h.kernel() {
        HostKernel::Whole(kernel) => tell(whole::terminated(kernel, task), out),
        HostKernel::Lasting(kernel) => tell_or(lasting::terminated(kernel, task), out),
    };
    code
}

/// What became of a task's latest call, wait, delay, activation or close; of a call that it accepted the caller too,
/// while that is suspended in the rendezvous (9.5).
#[unsafe(no_mangle)]
pub extern "C" fn adatask_outcome(h: &mut Handle, task: u64, out: &mut PlainOutcome) -> i32
    ensures told { IsToldBy h.old.home (λ journal. asked.outcome_of_task journal task)
        (lasts.outcome_of_task task) result out.old out.new }
    ensures same { h.new.home ≡ h.old.home }
{
    let code = match h.kernel() {
        HostKernel::Whole(kernel) => tell(whole::outcome(kernel, task), out),
        HostKernel::Lasting(kernel) => tell_or(lasting::outcome(kernel, task), out),
    };
    code
}

/// Why a task doesn't go on by itself.
#[unsafe(no_mangle)]
pub extern "C" fn adatask_reason(h: &mut Handle, task: u64, out: &mut PlainReason) -> i32
    ensures told { IsToldBy h.old.home (λ journal. asked.reason_told journal task)
        (lasts.reason_told task) result out.old out.new }
    ensures same { h.new.home ≡ h.old.home }
{
    let code = match h.kernel() {
        HostKernel::Whole(kernel) => tell(whole::reason(kernel, task), out),
        HostKernel::Lasting(kernel) => tell_or(lasting::reason(kernel, task), out),
    };
    code
}

/// The first task, of a number or more, for which a task waits.
#[unsafe(no_mangle)]
pub extern "C" fn adatask_awaited(h: &mut Handle, task: u64, from: u64, out: &mut u64) -> i32
    ensures told { IsToldBy h.old.home (λ journal. asked.awaited_told journal task from)
        (lasts.awaited_told task from) result out.old out.new }
    ensures same { h.new.home ≡ h.old.home }
{
    let code = match h.kernel() {
        HostKernel::Whole(kernel) => tell(whole::awaited(kernel, task, from), out),
        HostKernel::Lasting(kernel) => tell_or(lasting::awaited(kernel, task, from), out),
    };
    code
}

/// The first moment, in milliseconds, for which any task waits (9.6, 9.7.1, 9.7.3).
#[unsafe(no_mangle)]
pub extern "C" fn adatask_next_due(h: &mut Handle, out: &mut i64) -> i32
    ensures told { IsToldBy h.old.home (asked.due_told)
        (lasts.due_told) result out.old out.new }
    ensures same { h.new.home ≡ h.old.home }
{
    let code = match h.kernel() {
        HostKernel::Whole(kernel) => tell(whole::due(kernel), out),
        HostKernel::Lasting(kernel) => tell_or(lasting::due(kernel), out),
    };
    code
}

/// The first task, of a number or more, that runs and didn't before the last request.
#[unsafe(no_mangle)]
pub extern "C" fn adatask_runnable(h: &mut Handle, from: u64, out: &mut u64) -> i32
    ensures told { IsToldBy h.old.home (λ journal. asked.runnable_told journal from)
        (lasts.runnable_told from) result out.old out.new }
    ensures same { h.new.home ≡ h.old.home }
{
    let code = match h.kernel() {
        HostKernel::Whole(kernel) => tell(whole::runnable(kernel, from), out),
        HostKernel::Lasting(kernel) => tell_or(lasting::runnable(kernel, from), out),
    };
    code
}

/// The first task, of a number or more, that is terminated and wasn't before the last request, of a kernel that lives
/// on.
#[unsafe(no_mangle)]
pub extern "C" fn adatask_ended(h: &mut Handle, from: u64, out: &mut u64) -> i32
    ensures told { IsToldByLasting h.old.home (lasts.ended_told from) result out.old out.new }
    ensures same { h.new.home ≡ h.old.home }
{
    let code = match h.kernel() {
        HostKernel::Whole(_) => KEEPS_ALL,
        HostKernel::Lasting(kernel) => tell_or(lasting::ended(kernel, from), out),
    };
    code
}

/// The attributes of all tasks and entries (9.9), of a kernel that keeps everything.
#[unsafe(no_mangle)]
pub extern "C" fn adatask_board(h: &mut Handle, out: &mut PlainBoard) -> i32
    ensures told { IsBoardOf h.old.home result out.old out.new }
    ensures same { h.new.home ≡ h.old.home }
{
    let code = match h.kernel() {
        HostKernel::Whole(kernel) => {
            *out = plain_board(kernel.board());
            ACCEPTED
        }
        HostKernel::Lasting(_) => LIVES_ON,
    };
    code
}

/// The slot of an entry, below 1,024, of a kernel that keeps everything.
#[unsafe(no_mangle)]
pub extern "C" fn adatask_slot(
    h: &mut Handle,
    task: u64,
    family: u32,
    index: i32,
    out: &mut u32,
) -> i32
    ensures told { IsToldByWhole h.old.home
        (λ journal. asked.slot_of_entry journal task family index) result out.old out.new }
    ensures same { h.new.home ≡ h.old.home }
{
    let code = match h.kernel() {
        HostKernel::Whole(kernel) => tell(whole::slot(kernel, task, family, index), out),
        HostKernel::Lasting(_) => LIVES_ON,
    };
    code
}

/// COUNT of an entry of the asking task's own (9.9). A refusal has the code of its cause.
#[unsafe(no_mangle)]
pub extern "C" fn adatask_count(
    h: &mut Handle,
    by: u64,
    family: u32,
    index: i32,
    out: &mut u32,
) -> i32
    ensures told { IsCountedBy h.old.home by family index result out.old out.new }
    ensures same { h.new.home ≡ h.old.home }
{
    let code = match h.kernel() {
        HostKernel::Whole(kernel) => tell_count(whole::count(kernel, by, family, index), out),
        HostKernel::Lasting(kernel) => lasting::count(kernel, by, family, index, out),
    };
    code
}

/// How many calls are queued at an entry of a task (9.5): its COUNT, which anybody may ask here.
#[unsafe(no_mangle)]
pub extern "C" fn adatask_queued(
    h: &mut Handle,
    task: u64,
    family: u32,
    index: i32,
    out: &mut u32,
) -> i32
    ensures told { IsToldBy h.old.home
        (λ journal. asked.queued_told journal task family index)
        (lasts.queued_told task family index) result out.old out.new }
    ensures same { h.new.home ≡ h.old.home }
{
    let code = match h.kernel() {
        HostKernel::Whole(kernel) => tell(whole::queued(kernel, task, family, index), out),
        HostKernel::Lasting(kernel) => tell_or(lasting::queued(kernel, task, family, index), out),
    };
    code
}
