//! What a selective wait says by itself (9.7.1): the alternative that its pick takes, its delay alternatives, and the
//! way in which it ends while no call is to be taken.
ghost use Rattle.std.specs.Prelude.{◌≡◌, ◌<◌, ◌≤◌, ◌++◌, if◌then◌else◌, ◌∷◌, [], length};
ghost use Rattle.std.specs.Option.{option_map};
ghost use Rattle.ada_events.specs.declared.event.Way.TheVariants.{Delay};
ghost use Rattle.ada_events.specs.Waits as waits;
ghost use Rattle.ada_events.specs.declared.limits.TheConstants.{MOST_DELAYS};

use crate::{Bounded, Choice, EventTail, Way};

/// The numbers of some of a wait's choices, at most 16.
pub type ChoiceNumbers = Bounded<u8, 16>;

/// The numbers of some of a wait's delay alternatives, at most 8.
pub type DelayNumbers = Bounded<u8, 8>;

/// Appends a number to some, where it passes. There must be room for it.
pub fn push_if<const N: usize>(numbers: &mut Bounded<u8, N>, passes: bool, number: u8)
    requires { length numbers.old < N }
    ensures { numbers.new ≡ numbers.old ++ (if passes then number ∷ [] else []) }
{
    if passes {
        numbers.push(number);
    }
}

/// Number `pick % k` of `k` alternatives, none where there is none.
pub fn picked(pick: u32, numbers: &[u8]) -> Option<u8>
    ensures { result ≡ waits.picked pick numbers.now }
{
    if numbers.is_empty() {
        return None;
    }
    numbers.get(pick as usize % numbers.len()).copied()
}

/// A choice is open.
pub fn has_open_choice(choices: &[Choice]) -> bool
    ensures { result ≡ waits.has_open_choice choices.now }
{
    choices.iter().any(|choice| choice.guard)
}

/// A delay alternative is open: a closed one has no due moment.
pub fn has_open_delay(dues: &[Option<i64>]) -> bool
    ensures { result ≡ waits.has_open_delay dues.now }
{
    dues.iter().any(|due| due.is_some())
}

/// The due moment, where there is one, has come.
pub fn is_due(now: i64, due: Option<i64>) -> bool
    ensures { result ≡ waits.is_due now due }
{
    match due {
        Some(due) => due <= now,
        None => false,
    }
}

/// The due moment is that moment.
pub fn is_due_exactly(moment: Option<i64>, due: Option<i64>) -> bool
    ensures { result ≡ waits.is_due_exactly moment due }
{
    match (moment, due) {
        (Some(moment), Some(due)) => due <= moment && moment <= due,
        _ => false,
    }
}

/// The earlier of two moments, where there are two.
#[tactic(auto, unfolding(crate::specs::Waits::earlier))]
pub fn earlier(a: Option<i64>, b: Option<i64>) -> Option<i64>
    ensures { result ≡ waits.earlier a b }
{
    match (a, b) {
        (None, b) => b,
        (Some(m), None) => Some(m),
        (Some(m), Some(n)) => Some(if n < m { n } else { m }),
    }
}

/// The least due moment of the open delay alternatives.
#[tactic(auto, unfolding(crate::specs::Waits::least_due), using(crate::proofs::Lists::least_due_less, crate::proofs::Lists::least_due_past))]
pub fn least_due(dues: &[Option<i64>]) -> Option<i64>
    ensures { result ≡ waits.least_due dues.now }
{
    let mut left = dues.len();
    let mut least = None;
    while left > 0 {
        left -= 1;
        least = earlier(dues[left], least);
    }
    least
}

/// The least due moment of a wait's delay alternatives, if it has one.
pub fn tail_due(tail: &EventTail) -> Option<i64>
    ensures { result ≡ waits.tail_due tail.now }
{
    match tail {
        EventTail::Delays(dues) => least_due(dues.get().as_slice()),
        _ => None,
    }
}

/// The numbers of the delay alternatives that are due at that very moment, counted over all from 0.
#[tactic(auto, unfolding(crate::specs::Waits::numbers_from))]
pub fn due_exactly(moment: Option<i64>, dues: &[Option<i64>]) -> DelayNumbers
    requires { length dues.now ≤ MOST_DELAYS }
    ensures { result ≡ waits.numbers_from (waits.is_due_exactly moment) 0 dues.now }
{
    let mut numbers = DelayNumbers::new();
    for (i, due) in dues.iter().enumerate() {
        push_if(&mut numbers, is_due_exactly(moment, *due), i as u8);
    }
    numbers
}

/// The delay alternative that a wait takes at a moment, where one is due by then.
#[tactic(auto, unfolding(crate::specs::Waits::taken_delay))]
pub fn taken_delay(now: i64, pick: u32, dues: &[Option<i64>]) -> Option<u8>
    requires { length dues.now ≤ MOST_DELAYS }
    ensures { result ≡ waits.taken_delay now pick dues.now }
{
    let least = least_due(dues);
    if is_due(now, least) {
        picked(pick, due_exactly(least, dues).as_slice())
    } else {
        None
    }
}

fn without_choice(choices: &[Choice]) -> Option<Way>
    ensures { result ≡ waits.without_choice choices.now }
{
    if has_open_choice(choices) {
        None
    } else {
        Some(Way::ProgramError)
    }
}

fn delay_way(number: Option<u8>) -> Option<Way>
    ensures { result ≡ option_map Delay number }
{
    match number {
        Some(number) => Some(Way::Delay(number)),
        None => None,
    }
}

/// The way in which a wait with these choices, this tail and this pick ends at a moment, while no call is
/// to be taken.
#[tactic(auto, unfolding(crate::specs::Waits::way_of))]
pub fn way_of(now: i64, choices: &[Choice], pick: u32, tail: &EventTail) -> Option<Way>
    ensures { result ≡ waits.way_of now choices.now pick tail.now }
{
    match tail {
        EventTail::Nothing | EventTail::Terminate(false) => without_choice(choices),
        EventTail::Otherwise => Some(Way::Otherwise),
        EventTail::Terminate(true) => None,
        EventTail::Delays(dues) => delayed_way(now, choices, pick, dues.get().as_slice()),
    }
}

fn delayed_way(now: i64, choices: &[Choice], pick: u32, dues: &[Option<i64>]) -> Option<Way>
    requires { length dues.now ≤ MOST_DELAYS }
    ensures { result ≡ (if waits.has_open_delay dues.now
        then option_map Delay (waits.taken_delay now pick dues.now)
        else waits.without_choice choices.now) }
{
    if has_open_delay(dues) {
        delay_way(taken_delay(now, pick, dues))
    } else {
        without_choice(choices)
    }
}
