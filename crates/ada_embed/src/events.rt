//! Questions about events.

ghost use Rattle.std.specs.Prelude.{◌≡◌};
ghost use Rattle.ada_border.specs.Events as events;
ghost use Rattle.ada_embed.specs.Answers.{AreEventsFrom, IsToldBy};
ghost use Rattle.ada_embed.specs.Lasting as lasts;
ghost use Rattle.ada_embed.specs.Questions as asked;

use crate::answering::{tell, tell_or};
use crate::handle::Handle;
use crate::host_kernel::HostKernel;
use crate::lasting::questions as lasting;
use crate::whole::questions as whole;
use ada_border::codes::ACCEPTED;
use ada_border::events::PlainEvent;
use ada_border::lists::{PlainDue, PlainLengths};
use ada_border::parts::{PlainChoice, PlainFamily};

/// The event at a position, from 1. A kernel that lives on has those of the last request.
#[unsafe(no_mangle)]
pub extern "C" fn adatask_event(h: &mut Handle, position: u64, out: &mut PlainEvent) -> i32
    ensures told { IsToldBy h.old.home (λ journal. asked.event_told journal position)
        (lasts.event_told position) result out.old out.new }
    ensures same { h.new.home ≡ h.old.home }
{
    let code = match h.kernel() {
        HostKernel::Whole(kernel) => tell(whole::event(kernel, position), out),
        HostKernel::Lasting(kernel) => tell_or(lasting::event(kernel, position), out),
    };
    code
}

/// The events from a position on, as many as there are and as fit, and how many these are.
#[unsafe(no_mangle)]
pub extern "C" fn adatask_events_from(h: &mut Handle, from: u64, out: &mut [PlainEvent]) -> u64
    ensures told { AreEventsFrom h.old.home from result out.old out.new }
    ensures same { h.new.home ≡ h.old.home }
{
    for place in 0..out.len() {
        let Some(position) = from.checked_add(place as u64) else {
            return place as u64;
        };
        let mut event = out[place];
        if adatask_event(h, position, &mut event) != ACCEPTED {
            return place as u64;
        }
        out[place] = event;
    }
    out.len() as u64
}

/// How many items the lists of the event at a position have.
#[unsafe(no_mangle)]
pub extern "C" fn adatask_lengths(h: &mut Handle, position: u64, out: &mut PlainLengths) -> i32
    ensures told { IsToldBy h.old.home (λ journal. asked.lengths_told journal position)
        (lasts.lengths_told position) result out.old out.new }
    ensures same { h.new.home ≡ h.old.home }
{
    let code = match h.kernel() {
        HostKernel::Whole(kernel) => tell(whole::lengths(kernel, position), out),
        HostKernel::Lasting(kernel) => tell_or(lasting::lengths(kernel, position), out),
    };
    code
}

/// A task that an activation or an abort named, by its place from 0.
#[unsafe(no_mangle)]
pub extern "C" fn adatask_event_task(
    h: &mut Handle,
    position: u64,
    place: u64,
    out: &mut u64,
) -> i32
    ensures told { IsToldBy h.old.home
        (λ journal. asked.item_told journal position place events.tasks_of events.plain_task)
        (lasts.task_told position place) result out.old out.new }
    ensures same { h.new.home ≡ h.old.home }
{
    let code = match h.kernel() {
        HostKernel::Whole(kernel) => tell(whole::task_item(kernel, position, place), out),
        HostKernel::Lasting(kernel) => tell_or(lasting::task_item(kernel, position, place), out),
    };
    code
}

/// A family that a task declared, by its place from 0.
#[unsafe(no_mangle)]
pub extern "C" fn adatask_event_family(
    h: &mut Handle,
    position: u64,
    place: u64,
    out: &mut PlainFamily,
) -> i32
    ensures told { IsToldBy h.old.home
        (λ journal. asked.item_told journal position place events.families_of events.plain_family)
        (lasts.item_told position place events.families_of events.plain_family)
        result out.old out.new }
    ensures same { h.new.home ≡ h.old.home }
{
    let code = match h.kernel() {
        HostKernel::Whole(kernel) => tell(whole::family_item(kernel, position, place), out),
        HostKernel::Lasting(kernel) => tell_or(lasting::family_item(kernel, position, place), out),
    };
    code
}

/// An accept alternative of a wait, by its place from 0.
#[unsafe(no_mangle)]
pub extern "C" fn adatask_event_choice(
    h: &mut Handle,
    position: u64,
    place: u64,
    out: &mut PlainChoice,
) -> i32
    ensures told { IsToldBy h.old.home
        (λ journal. asked.item_told journal position place events.choices_of events.plain_choice)
        (lasts.item_told position place events.choices_of events.plain_choice)
        result out.old out.new }
    ensures same { h.new.home ≡ h.old.home }
{
    let code = match h.kernel() {
        HostKernel::Whole(kernel) => tell(whole::choice_item(kernel, position, place), out),
        HostKernel::Lasting(kernel) => tell_or(lasting::choice_item(kernel, position, place), out),
    };
    code
}

/// A delay alternative of a wait, by its place from 0.
#[unsafe(no_mangle)]
pub extern "C" fn adatask_event_delay(
    h: &mut Handle,
    position: u64,
    place: u64,
    out: &mut PlainDue,
) -> i32
    ensures told { IsToldBy h.old.home
        (λ journal. asked.item_told journal position place events.dues_of events.plain_due)
        (lasts.item_told position place events.dues_of events.plain_due)
        result out.old out.new }
    ensures same { h.new.home ≡ h.old.home }
{
    let code = match h.kernel() {
        HostKernel::Whole(kernel) => tell(whole::due_item(kernel, position, place), out),
        HostKernel::Lasting(kernel) => tell_or(lasting::due_item(kernel, position, place), out),
    };
    code
}
