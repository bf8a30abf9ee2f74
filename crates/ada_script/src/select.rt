//! Reading selective waits.

ghost use Rattle.std.specs.Prelude.{◌≡◌, ◌⊎◌, [], Ok, Err, IfOk, IfErr};
ghost use Rattle.ada_script.specs.internal.Reading.{Gives, GivesInMemory, passed_over, kind_of, branch_at, tail_of};
ghost use Rattle.ada_script.specs.internal.Reading.{link_at, pause_at, next_pause_at, pauses_at};
ghost use Rattle.ada_script.specs.internal.Reading.{choice_at, tail_from, choices_at, alternatives_at};
ghost use Rattle.ada_events.specs.declared.limits.TheConstants.{MOST_CHOICES};

use crate::cursor::Words;
use crate::fault::Fault;
use crate::parts::{read_entry, read_keyword, read_moment, read_word};
use ada_events::{Bounded, Pause, Pauses, Stored, Tail};
use ada_statements::{Alternative, Alternatives, Name, Names};
use std::alloc::Global;

/// The kinds of alternatives of a selective wait (9.7.1).
#[derive(Clone, Copy, Debug, PartialEq, Eq)]
pub enum Branch {
    Accept,
    Delay,
    Terminate,
}

impl Branch {
    ghost use Rattle.ada_script.specs.internal.Reading.{is_accept};

    /// Whether this is an accept alternative.
    fn is_accept(self) -> bool
        ensures { result ≡ is_accept self }
    {
        matches!(self, Branch::Accept)
    }
}

/// Passes over the word, if it stands next.
fn pass_over(keyword: &[u8], words: &mut Words) -> bool
    ensures passed { result ≡ (passed_over keyword.now words.old).0 }
    ensures rest { words.new ≡ (passed_over keyword.now words.old).1 }
{
    match words.peek() {
        Some(word) if word == keyword => {
            words.next();
            true
        }
        _ => false,
    }
}

/// The kind of an alternative that begins with this word.
#[tactic(auto, unfolding(crate::specs::internal::Reading::kind_of))]
fn branch_of(word: &[u8]) -> Result<Branch, Fault>
    ensures { result ≡ kind_of word.now }
{
    if word == b"accept".as_slice() {
        Ok(Branch::Accept)
    } else if word == b"delay".as_slice() {
        Ok(Branch::Delay)
    } else if word == b"terminate".as_slice() {
        Ok(Branch::Terminate)
    } else {
        Err(Fault::BadStatement)
    }
}

/// Takes the guard of an alternative, and which kind it is.
#[tactic(auto, unfolding(crate::specs::internal::Reading::branch_at))]
fn read_branch(words: &mut Words) -> Result<(bool, Branch), Fault>
    ensures { Gives result words.new (branch_at words.old) }
{
    let is_closed = pass_over(b"closed", words);
    let word = read_word(words)?;
    let branch = branch_of(word)?;
    Ok((!is_closed, branch))
}

/// What ends a wait behind an accept alternative, at this word: nothing, where another alternative
/// follows.
#[tactic(auto, unfolding(crate::specs::internal::Reading::tail_of))]
fn link_of(alloc: Global, word: &[u8]) -> Result<Option<Stored<Tail>>, Fault>
    ensures ok { IfOk result (λ tail. tail_of word.now ≡ Ok tail) }
    ensures err { IfErr result (λ fault.
        (fault ≡ Fault.OutOfMemory) ⊎ (tail_of word.now ≡ Err fault)) }
{
    if word == b"or".as_slice() {
        Ok(None)
    } else if word == b"else".as_slice() {
        Ok(Some(Stored::new(alloc, Tail::Otherwise)?))
    } else {
        Err(Fault::BadStatement)
    }
}

/// Takes what follows an accept alternative: a tail, or none where another alternative follows.
#[tactic(auto, unfolding(crate::specs::internal::Reading::link_at))]
fn read_link(alloc: Global, words: &mut Words) -> Result<Option<Stored<Tail>>, Fault>
    ensures { GivesInMemory result words.new (link_at words.old) }
{
    match words.next() {
        None => Ok(Some(Stored::new(alloc, Tail::Nothing)?)),
        Some(word) => link_of(alloc, word),
    }
}

/// Takes the duration of a delay alternative.
#[tactic(auto, unfolding(crate::specs::internal::Reading::pause_at))]
fn read_pause(guard: bool, words: &mut Words) -> Result<Pause, Fault>
    ensures { Gives result words.new (pause_at guard words.old) }
{
    let duration = read_moment(words)?;
    Ok(Pause { guard, duration })
}

/// Takes one more delay alternative.
#[tactic(auto, unfolding(crate::specs::internal::Reading::next_pause_at))]
fn read_next_pause(words: &mut Words) -> Result<Pause, Fault>
    ensures { Gives result words.new (next_pause_at words.old) }
{
    read_keyword(b"or", words)?;
    let (guard, branch) = read_branch(words)?;
    match branch {
        Branch::Delay => read_pause(guard, words),
        _ => Err(Fault::BadStatement),
    }
}

/// Takes delay alternatives, the first of which stands next behind its guard.
#[tactic(auto, unfolding(crate::specs::internal::Reading::pauses_at))]
fn read_pauses(guard: bool, words: &mut Words) -> Result<Pauses, Fault>
    ensures { Gives result words.new (pauses_at guard words.old) }
{
    let first = read_pause(guard, words)?;
    let mut pauses = Bounded::new();
    pauses.push(first);
    while !words.is_over() {
        if pauses.is_full() {
            return Err(Fault::BadStatement);
        }
        let pause = read_next_pause(words)?;
        pauses.push(pause);
    }
    Ok(pauses)
}

/// Takes an accept alternative behind its guard, and what follows it.
#[tactic(auto, unfolding(crate::specs::internal::Reading::choice_at))]
fn read_choice(
    alloc: Global,
    names: &Names,
    by: &Name,
    guard: bool,
    words: &mut Words,
) -> Result<(Alternative, Option<Stored<Tail>>), Fault>
    ensures { GivesInMemory result words.new (choice_at names.now by.now guard words.old) }
{
    let entry = read_entry(names, by, words)?;
    let tail = read_link(alloc, words)?;
    Ok((Alternative { guard, entry }, tail))
}

/// Takes the tail behind the accept alternatives.
#[tactic(auto, unfolding(crate::specs::internal::Reading::tail_from))]
fn read_tail(
    alloc: Global,
    branch: Branch,
    guard: bool,
    words: &mut Words,
) -> Result<Stored<Tail>, Fault>
    ensures { GivesInMemory result words.new (tail_from branch guard words.old) }
{
    match branch {
        Branch::Accept => Err(Fault::BadStatement),
        Branch::Delay => {
            let pauses = read_pauses(guard, words)?;
            Ok(Stored::new(alloc, Tail::Delays(pauses))?)
        }
        Branch::Terminate => Ok(Stored::new(alloc, Tail::Terminate(guard))?),
    }
}

/// Takes alternatives, of which one stands next, at most 16 of them accept alternatives.
fn read_choices(
    alloc: Global,
    names: &Names,
    by: &Name,
    words: &mut Words,
) -> Result<(Alternatives, Stored<Tail>), Fault>
    ensures { GivesInMemory result words.new
        (choices_at names.now by.now MOST_CHOICES [] words.old) }
{
    let mut choices = Alternatives::new(alloc);
    'alternatives: loop {
        let (guard, branch) = read_branch(words)?;
        if !branch.is_accept() || choices.is_full() {
            let tail = read_tail(alloc, branch, guard, words)?;
            return Ok((choices, tail));
        }
        let (choice, end) = read_choice(alloc, names, by, guard, words)?;
        choices.push(choice)?;
        if let Some(tail) = end {
            return Ok((choices, tail));
        }
    }
}

/// Takes the alternatives of a selective wait to the end of the line.
#[tactic(auto, unfolding(crate::specs::internal::Reading::alternatives_at))]
pub fn read_alternatives(
    alloc: Global,
    names: &Names,
    by: &Name,
    words: &mut Words,
) -> Result<(Alternatives, Stored<Tail>), Fault>
    ensures { GivesInMemory result words.new (alternatives_at names.now by.now words.old) }
{
    if words.is_over() {
        let tail = Stored::new(alloc, Tail::Nothing)?;
        return Ok((Alternatives::new(alloc), tail));
    }
    if pass_over(b"else", words) {
        let tail = Stored::new(alloc, Tail::Otherwise)?;
        return Ok((Alternatives::new(alloc), tail));
    }
    read_choices(alloc, names, by, words)
}
