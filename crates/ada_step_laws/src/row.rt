//! The rows of the forced steps.

ghost use Rattle.std.specs.Prelude.{◌≡◌, ◌<◌, ◌≤◌, IfSome, IfNone};
ghost use Rattle.ada_step_laws.specs.Rows as rows;

/// What a journal forces, in the order in which it is forced: of the rows that give a step the first one
/// counts, and in it the step at the least task number or position.
#[derive(Clone, Copy, Debug, PartialEq, Eq)]
pub enum Row {
    /// An abnormal task completes (9.10). By task.
    Halting,
    /// An open call to a completed, terminated or abnormal task fails (9.5, 9.10). By position of the call.
    Failing,
    /// A wait takes the call at the front of a queue (9.5, 9.7.1). By position of the wait.
    Meeting,
    /// A queued call that is conditional or due is cancelled (9.7.2, 9.7.3). By position of the call.
    Cancelling,
    /// A wait ends by its else part, by a delay, or by PROGRAM_ERROR (9.7.1). By position of the wait.
    Passing,
    /// A delay ends (9.6). By position of the delay.
    Waking,
    /// An activation ends (9.3). By position of the start.
    Activating,
    /// A task terminates (9.3, 9.4). By task.
    Terminating,
    /// All that depend on a body terminate together (9.4). By task.
    QuittingBody,
    /// All that depend on a block terminate together (9.4). By position of the block.
    QuittingBlock,
    /// A task leaves the block that it closed (9.4). By position of the close.
    Leaving,
}

impl Row {
    /// The place of the row among the rows, 0 to 10.
    pub fn rank(self) -> usize
        ensures rank { result ≡ rows.rank self }
        ensures below { result < 11 }
    {
        match self {
            Row::Halting => 0,
            Row::Failing => 1,
            Row::Meeting => 2,
            Row::Cancelling => 3,
            Row::Passing => 4,
            Row::Waking => 5,
            Row::Activating => 6,
            Row::Terminating => 7,
            Row::QuittingBody => 8,
            Row::QuittingBlock => 9,
            Row::Leaving => 10,
        }
    }

    /// The row at a place among the rows, 0 to 10.
    pub fn at_rank(rank: usize) -> Option<Row>
        ensures some { IfSome result (λ row. rows.rank row ≡ rank) }
        ensures none { IfNone result (11 ≤ rank) }
    {
        match rank {
            0 => Some(Row::Halting),
            1 => Some(Row::Failing),
            2 => Some(Row::Meeting),
            3 => Some(Row::Cancelling),
            4 => Some(Row::Passing),
            5 => Some(Row::Waking),
            6 => Some(Row::Activating),
            7 => Some(Row::Terminating),
            8 => Some(Row::QuittingBody),
            9 => Some(Row::QuittingBlock),
            10 => Some(Row::Leaving),
            _ => None,
        }
    }
}
