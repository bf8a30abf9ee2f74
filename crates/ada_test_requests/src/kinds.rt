//! The kinds of requests, and what a random run is mostly about.

/// The kinds of requests.
#[derive(Clone, Copy)]
pub enum Kind {
    Open,
    Create,
    Activate,
    Elaborated,
    Call,
    Wait,
    Delay,
    End,
    Close,
    Complete,
    Abort,
    Tick,
}

/// What a run is mostly about: a kind of requests comes the more often, the more often it stands here.
#[derive(Clone, Copy)]
pub struct Mix {
    pub kinds: &'static [Kind],
}

impl Mix {
    /// Mostly about how tasks end.
    pub const ENDING: Mix = Mix { kinds: &ENDING };

    /// About all kinds alike.
    pub const EVEN: Mix = Mix { kinds: &EVEN };
}

const ENDING: [Kind; 12] = [
    Kind::Open,
    Kind::Create,
    Kind::Create,
    Kind::Call,
    Kind::Call,
    Kind::Wait,
    Kind::Wait,
    Kind::Close,
    Kind::Close,
    Kind::Complete,
    Kind::Abort,
    Kind::Tick,
];

const EVEN: [Kind; 12] = [
    Kind::Open,
    Kind::Create,
    Kind::Activate,
    Kind::Elaborated,
    Kind::Call,
    Kind::Wait,
    Kind::Delay,
    Kind::End,
    Kind::Close,
    Kind::Complete,
    Kind::Abort,
    Kind::Tick,
];
