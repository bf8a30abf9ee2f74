//! Two readers of one board.
use ada_board::{BoardFault, BoardReader, Mark, Naming, Readers};
use ada_events::TaskNo;
use ada_hall::Told;
use std::test::Fail;

/// The task that the watchers look at.
pub const SERVER: TaskNo = TaskNo(1);

/// The position of a step's event, and the mark that it gave. Fails where the board found no memory.
pub fn marked<J: Naming>(told: Told<J>) -> Result<(u32, Mark<J>), Fail> {
    let Told { at, mark } = told;
    let Some(mark) = mark else {
        return Err("a mark".into());
    };
    Ok((at, mark))
}

/// Two readers, of which one is told of each step.
#[derive(Drop)]
pub struct Watchers<J: Naming> {
    pub told: BoardReader<J>,
    pub untold: BoardReader<J>,
}

impl<J: Naming> Watchers<J> {
    /// Takes two places. Fails with `NoPlace` where there is none left.
    pub fn take(places: &mut Readers<J>) -> Result<Self, BoardFault> {
        Ok(Watchers {
            told: places.take()?,
            untold: places.take()?,
        })
    }

    /// Tells one of them of a step: the position of its event.
    pub fn learn(&mut self, told: Told<J>) -> Result<u32, Fail> {
        let (at, mark) = marked(told)?;
        self.told.learn(mark);
        Ok(at)
    }

    /// Whether both see so many calls in the queue of the first entry.
    pub fn see_queued(&mut self, calls: u16) -> bool {
        self.told.count(0) == Some(calls) && self.untold.count(0) == Some(calls)
    }

    /// Whether both see that the server is callable.
    pub fn see_server(&mut self) -> bool {
        self.told.callable(SERVER) == Some(true) && self.untold.callable(SERVER) == Some(true)
    }

    /// Whether both see that the server has terminated.
    pub fn see_no_server(&mut self) -> bool {
        sees_no_server(&mut self.told) && sees_no_server(&mut self.untold)
    }
}

/// Whether a reader sees the server terminated, and no fifth task and no third slot.
pub fn sees_no_server<J: Naming>(reader: &mut BoardReader<J>) -> bool {
    reader.callable(SERVER) == Some(false)
        && reader.terminated(SERVER) == Some(true)
        && reader.callable(TaskNo(4)).is_none()
        && reader.terminated(TaskNo(4)).is_none()
        && reader.count(2).is_none()
}
