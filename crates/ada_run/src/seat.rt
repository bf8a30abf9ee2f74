//! What a thread takes to its work.
ghost use Rattle.std.specs.Prelude.{◌≡◌, IfOk, IfErr, map};
ghost use Rattle.std.specs.List.{range_with_len};
ghost use Rattle.ada_run.specs.Opening.{IsOpeningFault};

use ada_board::{BoardFault, BoardReader, Readers};
use ada_hall::Session;
use ada_replay::RunFault;
use std::alloc::Global;
use std::sync::ledger::Share;

/// What a thread takes to its work: the number of its speaker, a reader of the hall's board, and a part of the
/// hall's total, which is worth nothing yet.
#[derive(Drop)]
pub struct Seat<J: Session> {
    pub speaker: u32,
    pub reader: BoardReader<J>,
    /// It takes no bytes.
    pub share: Share<J>,
    ghost one_part: { share.parts ≡ 1 },
    ghost worth_nothing: { share.amount ≡ 0 },
}

impl<J: Session> Seat<J> {
    fn new(speaker: u32, reader: BoardReader<J>, share: Share<J>) -> Seat<J>
        requires { (share.parts ≡ 1) × (share.amount ≡ 0) }
        ensures { result.speaker ≡ speaker }
    {
        Seat {
            speaker,
            reader,
            share,
        }
    }
}

// What a fault of a board is to a run: a place that can't be had is a thread that can't play.
pub(crate) fn fault_of(fault: BoardFault) -> RunFault
    ensures { IsOpeningFault result }
{
    match fault {
        BoardFault::OutOfMemory => RunFault::Memory,
        BoardFault::NoPlace => RunFault::Threads,
    }
}

/// A seat for each of so many speakers, in their order. Fails with `Memory`, or with `Threads` where the board has
/// fewer places.
#[tactic(auto, using(crate::proofs::Numbering::numbered_one_more))]
pub fn seats<J: Session>(
    alloc: Global,
    places: Readers<J>,
    share: Share<J>,
    speakers: u32,
) -> Result<Vec<Seat<J>>, RunFault>
    requires { (share.parts ≡ speakers) × (share.amount ≡ 0) }
    ensures ok { IfOk result (λ seats.
        map (λ seat. seat.speaker) seats.items ≡ range_with_len 0 speakers) }
    ensures err { IfErr result IsOpeningFault }
{
    let mut places = places;
    let mut share = share;
    let mut seats = Vec::new(alloc);
    for speaker in 0..speakers {
        let reader = places.take().map_err(fault_of)?;
        let part = share.split_off(1, 0);
        seats
            .push(Seat::new(speaker, reader, part))
            .map_err(|_| RunFault::Memory)?;
    }
    Ok(seats)
}
