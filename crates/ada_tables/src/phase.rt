//! What has become of a task.

/// The state of a task (9.3, 9.4, 9.7.1).
#[derive(Clone, Copy, Debug, PartialEq, Eq)]
pub enum Phase {
    /// Its activation hasn't begun.
    Unstarted,
    /// It runs.
    Active,
    /// It is suspended otherwise than at an open terminate alternative.
    Held,
    /// It is suspended at a selective wait whose terminate alternative is open.
    Quittable,
    /// It is completed, and not terminated.
    Completed,
    Terminated,
}
