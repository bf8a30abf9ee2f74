//! What a random run is mostly about.

use ada_test_requests::{Kind, Mix};

/// The mixes, one of which each run takes.
pub const MIXES: [Mix; 4] = [
    Mix { kinds: &TALKING },
    Mix::ENDING,
    Mix::EVEN,
    Mix { kinds: &NESTING },
];

const TALKING: [Kind; 14] = [
    Kind::Open,
    Kind::Create,
    Kind::Call,
    Kind::Call,
    Kind::Call,
    Kind::Call,
    Kind::Wait,
    Kind::Wait,
    Kind::Wait,
    Kind::Wait,
    Kind::Delay,
    Kind::End,
    Kind::Tick,
    Kind::Complete,
];

const NESTING: [Kind; 9] = [
    Kind::Open,
    Kind::Open,
    Kind::Open,
    Kind::Create,
    Kind::Call,
    Kind::Call,
    Kind::Wait,
    Kind::Wait,
    Kind::Complete,
];
