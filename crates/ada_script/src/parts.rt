//! Reading the parts of a statement.

ghost use Rattle.std.specs.Prelude.{◌≡◌, ◌≤◌, length, IfOk, IsTrue};
ghost use Rattle.std.specs.List.{list_all};
ghost use Rattle.ada_statements.specs.Scope.{is_declared};
ghost use Rattle.ada_statements.specs.Text.{is_name as name_form, is_name_byte as name_byte};
ghost use Rattle.ada_script.specs.internal.Reading.{Gives, GivesWord, word_at, end_at, keyword_at, moment_at, index_at, pick_at, below_2_32 as low_number};
ghost use Rattle.ada_script.specs.internal.Reading.{number_is_next, optional_index_at, bounds_at, name_at, task_name_at};
ghost use Rattle.ada_script.specs.internal.Reading.{master_at, new_name_at, entry_name_at};

use crate::cursor::Words;
use crate::fault::Fault;
use crate::number::{index, integer, natural};
use ada_events::Family;
use ada_statements::{EntryName, Name, Names};

/// Takes the next word, which must be there.
pub fn read_word<'a>(words: &mut Words<'a>) -> Result<&'a [u8], Fault>
    ensures { GivesWord result words.new (word_at words.old) }
{
    words.next().ok_or(Fault::BadStatement)
}

/// Checks that no word is left.
pub fn read_end(words: &mut Words) -> Result<(), Fault>
    ensures { Gives result words.new (end_at words.old) }
{
    match words.next() {
        None => Ok(()),
        Some(_) => Err(Fault::BadStatement),
    }
}

/// Takes a word that must be this one.
#[tactic(auto, unfolding(crate::specs::internal::Reading::keyword_at))]
pub fn read_keyword(keyword: &[u8], words: &mut Words) -> Result<(), Fault>
    ensures { Gives result words.new (keyword_at keyword.now words.old) }
{
    let word = read_word(words)?;
    if word == keyword {
        Ok(())
    } else {
        Err(Fault::BadStatement)
    }
}

/// Takes a moment or a duration.
#[tactic(auto, unfolding(crate::specs::internal::Reading::moment_at))]
pub fn read_moment(words: &mut Words) -> Result<i64, Fault>
    ensures { Gives result words.new (moment_at words.old) }
{
    let word = read_word(words)?;
    integer(word).ok_or(Fault::BadNumber)
}

/// Takes an index or a bound.
#[tactic(auto, unfolding(crate::specs::internal::Reading::index_at))]
fn read_index(words: &mut Words) -> Result<i32, Fault>
    ensures { Gives result words.new (index_at words.old) }
{
    let word = read_word(words)?;
    index(word).ok_or(Fault::BadNumber)
}

/// The number, if it is below 2 ^ 32.
fn below_2_32(number: Option<u64>) -> Option<u32>
    ensures { result ≡ low_number number }
{
    match number {
        Some(number) if number <= u32::MAX as u64 => Some(number as u32),
        _ => None,
    }
}

/// Takes the pick of a selective wait.
#[tactic(auto, unfolding(crate::specs::internal::Reading::pick_at))]
pub fn read_pick(words: &mut Words) -> Result<u32, Fault>
    ensures { Gives result words.new (pick_at words.old) }
{
    let word = read_word(words)?;
    below_2_32(natural(word)).ok_or(Fault::BadNumber)
}

/// Whether the next word begins as a number does.
fn is_number_next(words: &Words) -> bool
    ensures { result ≡ number_is_next words.now }
{
    match words.first() {
        None => false,
        Some(first) => first.is_ascii_digit() || first == b'-',
    }
}

/// Takes an index, where one is written.
#[tactic(auto, unfolding(crate::specs::internal::Reading::optional_index_at))]
fn read_optional_index(words: &mut Words) -> Result<Option<i32>, Fault>
    ensures { Gives result words.new (optional_index_at words.old) }
{
    if !is_number_next(words) {
        return Ok(None);
    }
    let index = read_index(words)?;
    Ok(Some(index))
}

/// Takes the bounds of a family, where they are written.
#[tactic(auto, unfolding(crate::specs::internal::Reading::bounds_at))]
pub fn read_bounds(words: &mut Words) -> Result<Option<Family>, Fault>
    ensures { Gives result words.new (bounds_at words.old) }
{
    if !is_number_next(words) {
        return Ok(None);
    }
    let low = read_index(words)?;
    let high = read_index(words)?;
    Ok(Some(Family { low, high }))
}

/// Whether a byte may stand behind the first of a name.
fn is_name_byte(byte: u8) -> bool
    ensures { result ≡ name_byte byte }
{
    byte.is_ascii_alphanumeric() || byte == b'_'
}

/// Whether each byte may stand behind the first of a name.
fn are_name_bytes(bytes: &[u8]) -> bool
    ensures { result ≡ list_all name_byte bytes.now }
{
    bytes.iter().all(|byte| is_name_byte(*byte))
}

/// Whether the word has the form of a name.
pub fn is_name(word: &[u8]) -> bool
    ensures value { result ≡ name_form word.now }
    ensures short { IsTrue result → length word.now ≤ 16 }
{
    let [first, others @ ..] = word else {
        return false;
    };
    if others.len() > 15 {
        return false;
    }
    first.is_ascii_alphabetic() && are_name_bytes(others)
}

/// Takes a word that has the form of a name.
#[tactic(auto, unfolding(crate::specs::internal::Reading::name_at))]
fn read_name_word<'a>(words: &mut Words<'a>) -> Result<&'a [u8], Fault>
    ensures word { GivesWord result words.new (name_at words.old) }
    ensures short { IfOk result (λ word. length word.now ≤ 16) }
{
    let word = read_word(words)?;
    if is_name(word) {
        Ok(word)
    } else {
        Err(Fault::BadStatement)
    }
}

/// Takes a name.
pub fn read_name(words: &mut Words) -> Result<Name, Fault>
    ensures { Gives result words.new (name_at words.old) }
{
    let name = read_name_word(words)?;
    Ok(Name::from_bytes(name))
}

/// Takes the name of a declared task, and finds it as it was declared.
#[inline(always)]
#[tactic(auto, unfolding(crate::specs::internal::Reading::task_name_at))]
pub fn read_declared_task<'n>(names: &'n Names, words: &mut Words) -> Result<&'n Name, Fault>
    ensures { GivesWord result words.new (task_name_at names.now words.old) }
{
    let name = read_name_word(words)?;
    names.task_name(name).ok_or(Fault::UnknownName)
}

/// Takes the name of a declared task.
pub fn read_task(names: &Names, words: &mut Words) -> Result<Name, Fault>
    ensures { Gives result words.new (task_name_at names.now words.old) }
{
    let name = read_declared_task(names, words)?;
    Ok(name.copy())
}

/// Takes the name of a task or a block that is declared.
#[tactic(auto, unfolding(crate::specs::internal::Reading::master_at))]
pub fn read_master(names: &Names, words: &mut Words) -> Result<Name, Fault>
    ensures { Gives result words.new (master_at names.now words.old) }
{
    let name = read_name_word(words)?;
    match names.declared_name(name) {
        Some(declared) => Ok(declared.copy()),
        None => Err(Fault::UnknownName),
    }
}

/// Takes a name that isn't declared yet.
#[tactic(auto, unfolding(crate::specs::internal::Reading::new_name_at))]
pub fn read_new_name(names: &Names, words: &mut Words) -> Result<Name, Fault>
    ensures { Gives result words.new (new_name_at names.now words.old) }
{
    let name = read_name_word(words)?;
    if names.is_declared(name) {
        Err(Fault::DoubleName)
    } else {
        Ok(names.new_name(name))
    }
}

/// Takes the name of an entry of a task, and its index where one is written.
#[tactic(auto, unfolding(crate::specs::internal::Reading::entry_name_at))]
pub fn read_entry(names: &Names, task: &Name, words: &mut Words) -> Result<EntryName, Fault>
    ensures { Gives result words.new (entry_name_at names.now task.now words.old) }
{
    let name = read_name_word(words)?;
    let Some(family) = names.entry_name(task, name) else {
        return Err(Fault::UnknownName);
    };
    let index = read_optional_index(words)?;
    Ok(EntryName {
        family: family.copy(),
        index,
    })
}
