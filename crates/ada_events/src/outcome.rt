//! What became of a task's latest doing.

/// The outcome of a task: that it ended, or what became of its latest call, wait, delay, activation
/// or close.
#[derive(Clone, Copy, Debug, PartialEq, Eq)]
pub enum Outcome {
    /// The task is terminated (9.4).
    Dead,
    /// The task is completed (9.4).
    Done,
    /// It is still held up.
    Held,
    /// Its call was accepted and served (9.5).
    Served,
    /// Its call ended by TASKING_ERROR (9.5, 9.10).
    TaskingError,
    /// Its call was cancelled (9.7.2, 9.7.3).
    Cancelled,
    /// Its wait accepted the call at this position, by this choice, counted from 0 (9.7.1).
    Accepted { call: u32, choice: u8 },
    /// Its wait took the else part (9.7.1).
    TookElse,
    /// Its wait took this delay alternative, counted from 0 (9.7.1).
    TookDelay(u8),
    /// Its wait ended by PROGRAM_ERROR (9.7.1).
    ProgramError,
    /// Its delay ended (9.6).
    Awake,
    /// Its activation of other tasks ended without an exception (9.3).
    ActivationOk,
    /// Its activation of other tasks ended by TASKING_ERROR (9.3).
    ActivationFailed,
    /// It left a block (9.4).
    BlockLeft,
    /// An exception ended a rendezvous that it served, or its own call (11.5).
    Raised,
    /// It has done nothing yet.
    Nothing,
}
