//! By which row of the forced steps an event is forced.
ghost use Rattle.std.specs.Prelude.{◌≡◌, IfSome, IfNone};
ghost use Rattle.std.specs.Option.{is_some};
ghost use Rattle.ada_waiting.specs.Runnable.{is_step};
ghost use Rattle.ada_explain.specs.Rows.{IsRowOf, IsNeverForced};
ghost use Rattle.ada_explain.specs.internal.Numbers.{number};

use ada_events::Event;

// The number of the row that forces such events; 0 of those that are asked for.
fn number_of(event: &Event) -> u8
    ensures { result ≡ number event.now }
{
    match event {
        Event::Halted { .. } => 1,
        Event::Failed { .. } => 2,
        Event::Met { .. } => 3,
        Event::Cancelled { .. } => 4,
        Event::Passed { .. } => 5,
        Event::Woken { .. } => 6,
        Event::Activated { .. } => 7,
        Event::Gone { .. } => 8,
        Event::Quit { .. } => 9,
        Event::Left { .. } => 10,
        Event::Opened { .. }
        | Event::Created { .. }
        | Event::Started { .. }
        | Event::Elaborated { .. }
        | Event::Called { .. }
        | Event::Waiting { .. }
        | Event::Paused { .. }
        | Event::Ended { .. }
        | Event::Closed { .. }
        | Event::Completed { .. }
        | Event::Aborted { .. }
        | Event::Ticked { .. } => 0,
    }
}

/// The row of the forced steps, 1 to 10, by which such an event is forced; none if it is asked for.
#[tactic(auto, using(crate::proofs::Forcing::is_row, crate::proofs::Forcing::is_never, crate::proofs::Forcing::no_step, crate::proofs::Forcing::some_step))]
pub fn row_of(event: &Event) -> Option<u8>
    ensures step { is_some result ≡ is_step event.now }
    ensures some { IfSome result (IsRowOf event.now) }
    ensures none { IfNone result (IsNeverForced event.now) }
{
    match number_of(event) {
        0 => None,
        number => Some(number),
    }
}
