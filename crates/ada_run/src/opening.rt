//! A hall with the seats of those who speak in it.
ghost use Rattle.std.specs.Prelude.{◌≡◌, ◌<◌, ◌≤◌, IfOk, IfErr, map};
ghost use Rattle.std.specs.List.{range_with_len};
ghost use Rattle.ada_run.specs.Opening.{IsOpeningFault};
ghost use Rattle.ada_hall.specs.Halls.{opening};

use crate::seat::{Seat, fault_of, seats};
use ada_board::{History, open_board};
use ada_hall::{Hall, Session};
use ada_replay::RunFault;
use ada_script::Script;
use std::sync::Wait;
use std::sync::ledger::Blank;

/// Opens a hall on a script, with a seat for each of 1 to 256 speakers. Where memory is refused, or a place of
/// the board, nothing is left open.
pub fn open_hall<'s, J: Session, R: Wait + AllocGlobal>(
    rt: &R,
    history: History,
    blank: Blank,
    script: &'s Script,
    speakers: u32,
) -> Result<(Hall<'s, J>, Vec<Seat<J>>), RunFault>
    requires named { history ≡ J.book }
    requires script { script.now ≡ J.script }
    requires ledger { (blank.name ≡ J.name) × (blank.parts ≡ J.parts) }
    requires speakers { (0 < speakers) × (speakers ≤ 256) × (blank.parts ≡ speakers) }
    ensures hall { IfOk result (λ opened. opened.0 ≡ opening J.script) }
    ensures seats { IfOk result (λ opened.
        map (λ seat. seat.speaker) opened.1.items ≡ range_with_len 0 speakers) }
    ensures err { IfErr result IsOpeningFault }
{
    let opened = open_board::<J, R>(rt, rt.alloc(), history, speakers as usize);
    let (writer, places) = opened.map_err(fault_of)?;
    let (book, share) = blank.open::<J>();
    let seats = match seats(rt.alloc(), places, share, speakers) {
        Ok(seats) => seats,
        Err(fault) => {
            writer.close(rt);
            return Err(fault);
        }
    };
    match Hall::new(rt.alloc(), script, writer, book) {
        Ok(hall) => Ok((hall, seats)),
        Err((_, writer, _book)) => {
            writer.close(rt);
            Err(RunFault::Memory)
        }
    }
}
