//! What a kernel can be measured at, and how much of it there is.

/// What the requests are about.
#[derive(Clone, Copy, Debug, PartialEq, Eq)]
pub enum Work {
    /// One rendezvous after another between a client and a server.
    PingPong,
    /// A thousand events of the same, behind as many events as are asked for.
    Late,
    /// The abort of tasks, each of which calls the next in its own rendezvous.
    Abort,
    /// Servers that terminate together when their block is closed.
    Quit,
    /// Ticks, at which nothing is due.
    Tick,
    /// Calls that are queued, one of each task that has something to do but the first, which they call.
    Call,
}

impl Work {
    /// All kinds.
    pub const ALL: [Work; 6] = [
        Work::PingPong,
        Work::Late,
        Work::Abort,
        Work::Quit,
        Work::Tick,
        Work::Call,
    ];

    /// The name of the work.
    pub fn name(self) -> &'static str {
        match self {
            Work::PingPong => "rendezvous",
            Work::Late => "late",
            Work::Abort => "abort",
            Work::Quit => "quit",
            Work::Tick => "tick",
            Work::Call => "call",
        }
    }

    /// How many rendezvous, earlier events, tasks or ticks there are, where nothing else is asked for.
    pub fn usual_size(self) -> usize {
        match self {
            Work::PingPong | Work::Tick => 1000,
            Work::Late => 60_000,
            Work::Abort | Work::Call => 255,
            Work::Quit => 60,
        }
    }

    /// The same for a quick try.
    pub fn small_size(self) -> usize {
        match self {
            Work::PingPong | Work::Tick => 2,
            Work::Late => 40,
            Work::Abort | Work::Quit | Work::Call => 4,
        }
    }
}
