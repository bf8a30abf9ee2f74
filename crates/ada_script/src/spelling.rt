//! Spelling statements.

ghost use Rattle.std.specs.Prelude.{◌≡◌, ◌≤◌, true, ◌++◌, ◌∷◌, [], length, map, decimal, OnOk, IfOk, IsOkUnless};
ghost use Rattle.std.specs.Fmt.{signed_decimal};
ghost use Rattle.std.specs.List.{flat_map};
ghost use Rattle.ada_script.specs.internal.Verbs.{verb_word};
ghost use Rattle.ada_script.specs.Spelling.{speaker, entry_words, index_words, bounds_words, family_words, guard_words, choice_words, pause_words};
ghost use Rattle.ada_script.specs.Spelling.{select_words, tail_alternatives, else_words, words_of};
ghost use Rattle.ada_script.specs.internal.Writing.{or_words, linked_by_or};
ghost use Rattle.ada_statements.specs.declared.statement.Statement.TheVariants as statements;
ghost use Rattle.ada_script.specs.declared.verb.Verb.TheVariants as verbs;

use crate::verb::{Verb, word_of};
use crate::word::Word;
use ada_events::{Family, Pause, Pauses, Tail};
use ada_statements::{
    Alternative, Alternatives, Cause, Declaration, Declarations, EntryName, Name, Statement,
    TaskNames,
};
use itoa::Buffer;
use std::alloc::{AllocError, Global};

/// Appends a word.
fn put(words: &mut Vec<Word>, word: &[u8]) -> Result<(), AllocError>
    requires { length word.now ≤ 20 }
    ensures { OnOk result (words.new.items ≡ words.old.items ++ word.now ∷ []) }
{
    words.push(Word::from_bytes(word))?;
    Ok(())
}

/// Appends a name.
fn put_name(words: &mut Vec<Word>, name: &Name) -> Result<(), AllocError>
    ensures { OnOk result (words.new.items ≡ words.old.items ++ name.now ∷ []) }
{
    put(words, name.as_bytes())
}

/// Appends a number.
fn put_number(words: &mut Vec<Word>, number: i64) -> Result<(), AllocError>
    ensures { OnOk result (words.new.items ≡ words.old.items ++ signed_decimal number ∷ []) }
{
    let mut buffer = Buffer::new();
    put(words, buffer.format(number).as_bytes())
}

/// Appends a pick.
fn put_pick(words: &mut Vec<Word>, pick: u32) -> Result<(), AllocError>
    ensures { OnOk result (words.new.items ≡ words.old.items ++ decimal pick ∷ []) }
{
    let mut buffer = Buffer::new();
    put(words, buffer.format(pick).as_bytes())
}

/// The word of a speaker.
fn speaker_word(by: &Name) -> Word
    ensures { result ≡ speaker by.now }
{
    let mut word = Word::from_bytes(by.as_bytes());
    word.push(b':');
    word
}

/// Appends a speaker and its verb.
fn put_speech(words: &mut Vec<Word>, by: &Name, verb: Verb) -> Result<(), AllocError>
    ensures { OnOk result (words.new.items ≡ words.old.items ++ speaker by.now ∷ verb_word verb
        ∷ []) }
{
    words.push(speaker_word(by))?;
    put(words, word_of(verb))
}

/// Appends an index, where one is written.
fn put_index(words: &mut Vec<Word>, index: Option<i32>) -> Result<(), AllocError>
    ensures { OnOk result (words.new.items ≡ words.old.items ++ index_words index) }
{
    match index {
        None => Ok(()),
        Some(index) => put_number(words, i64::from(index)),
    }
}

/// Appends an entry.
fn put_entry(words: &mut Vec<Word>, entry: &EntryName) -> Result<(), AllocError>
    ensures { OnOk result (words.new.items ≡ words.old.items ++ entry_words entry.now) }
{
    put_name(words, &entry.family)?;
    put_index(words, entry.index)
}

/// Appends both bounds, where they are written.
fn put_bounds(words: &mut Vec<Word>, bounds: Option<Family>) -> Result<(), AllocError>
    ensures { OnOk result (words.new.items ≡ words.old.items ++ bounds_words bounds) }
{
    match bounds {
        None => Ok(()),
        Some(family) => {
            put_number(words, i64::from(family.low))?;
            put_number(words, i64::from(family.high))
        }
    }
}

/// Appends a family.
fn put_family(words: &mut Vec<Word>, family: &Declaration) -> Result<(), AllocError>
    ensures { OnOk result (words.new.items ≡ words.old.items ++ family_words family.now) }
{
    put_name(words, &family.name)?;
    put_bounds(words, family.bounds)
}

/// Appends families.
fn put_families(words: &mut Vec<Word>, families: &Declarations) -> Result<(), AllocError>
    ensures { OnOk result (words.new.items ≡ words.old.items
        ++ flat_map family_words families.now) }
{
    for family in families.as_slice() {
        put_family(words, family)?;
    }
    Ok(())
}

/// Appends the names of tasks.
fn put_tasks(words: &mut Vec<Word>, tasks: &TaskNames) -> Result<(), AllocError>
    ensures { OnOk result (words.new.items ≡ words.old.items ++ tasks.now) }
{
    for task in tasks.as_slice() {
        put_name(words, task)?;
    }
    Ok(())
}

/// Appends the word of a guard that is false.
fn put_guard(words: &mut Vec<Word>, guard: bool) -> Result<(), AllocError>
    ensures { OnOk result (words.new.items ≡ words.old.items ++ guard_words guard) }
{
    if guard { Ok(()) } else { put(words, b"closed") }
}

/// Appends an accept alternative.
fn put_choice(words: &mut Vec<Word>, choice: &Alternative) -> Result<(), AllocError>
    ensures { OnOk result (words.new.items ≡ words.old.items ++ choice_words choice.now) }
{
    put_guard(words, choice.guard)?;
    put(words, b"accept")?;
    put_entry(words, &choice.entry)
}

/// Appends a delay alternative.
fn put_pause(words: &mut Vec<Word>, pause: Pause) -> Result<(), AllocError>
    ensures { OnOk result (words.new.items ≡ words.old.items ++ pause_words pause) }
{
    put_guard(words, pause.guard)?;
    put(words, b"delay")?;
    put_number(words, pause.duration)
}

/// Appends the word between two alternatives, unless this is the first.
fn put_or(words: &mut Vec<Word>, is_first: bool) -> Result<(), AllocError>
    ensures { OnOk result (words.new.items ≡ words.old.items ++ or_words is_first) }
{
    if is_first { Ok(()) } else { put(words, b"or") }
}

/// Appends accept alternatives.
fn put_choices(words: &mut Vec<Word>, choices: &Alternatives) -> Result<(), AllocError>
    ensures { OnOk result (words.new.items ≡ words.old.items
        ++ linked_by_or true (map choice_words choices.now)) }
{
    for (i, choice) in choices.as_slice().iter().enumerate() {
        put_or(words, i == 0)?;
        put_choice(words, choice)?;
    }
    Ok(())
}

/// Appends delay alternatives, of which the first is the first alternative of all or not.
fn put_pauses(words: &mut Vec<Word>, is_first: bool, pauses: &Pauses) -> Result<(), AllocError>
    ensures { OnOk result (words.new.items ≡ words.old.items
        ++ linked_by_or is_first (map pause_words pauses.now)) }
{
    for (i, pause) in pauses.as_slice().iter().enumerate() {
        put_or(words, is_first && i == 0)?;
        put_pause(words, *pause)?;
    }
    Ok(())
}

/// Appends the tail of a wait, which has accept alternatives before it or not.
fn put_tail(words: &mut Vec<Word>, is_first: bool, tail: &Tail) -> Result<(), AllocError>
    ensures { OnOk result (words.new.items ≡ words.old.items
        ++ (linked_by_or is_first (tail_alternatives tail.now) ++ else_words tail.now)) }
{
    match tail {
        Tail::Nothing => Ok(()),
        Tail::Otherwise => put(words, b"else"),
        Tail::Delays(pauses) => put_pauses(words, is_first, pauses),
        Tail::Terminate(guard) => {
            put_or(words, is_first)?;
            put_guard(words, *guard)?;
            put(words, b"terminate")
        }
    }
}

/// Appends the alternatives of a selective wait.
fn put_alternatives(
    words: &mut Vec<Word>,
    choices: &Alternatives,
    tail: &Tail,
) -> Result<(), AllocError>
    ensures { OnOk result (words.new.items ≡ words.old.items ++ select_words choices.now tail.now) }
{
    put_choices(words, choices)?;
    put_tail(words, choices.is_empty(), tail)
}

/// Appends a selective wait.
fn put_select(
    words: &mut Vec<Word>,
    by: &Name,
    pick: u32,
    choices: &Alternatives,
    tail: &Tail,
) -> Result<(), AllocError>
    ensures { OnOk result (words.new.items ≡ words.old.items
        ++ words_of (statements.Select by.now pick choices.now tail.now)) }
{
    put_speech(words, by, Verb::Select)?;
    put_pick(words, pick)?;
    put_alternatives(words, choices, tail)
}

fn put_tick(words: &mut Vec<Word>, now: i64) -> Result<(), AllocError>
    ensures { OnOk result (words.new.items ≡ words.old.items ++ words_of (statements.Tick now)) }
{
    put(words, b"tick")?;
    put_number(words, now)
}

/// Appends a speaker, its verb and a name.
fn put_object(words: &mut Vec<Word>, by: &Name, verb: Verb, object: &Name) -> Result<(), AllocError>
    ensures { OnOk result (words.new.items ≡ words.old.items ++ speaker by.now ∷ verb_word verb
        ∷ object.now ∷ []) }
{
    put_speech(words, by, verb)?;
    put_name(words, object)
}

fn put_create(
    words: &mut Vec<Word>,
    by: &Name,
    task: &Name,
    under: &Name,
    families: &Declarations,
) -> Result<(), AllocError>
    ensures { OnOk result (words.new.items ≡ words.old.items
        ++ words_of (statements.Create by.now task.now under.now families.now)) }
{
    put_object(words, by, Verb::Create, task)?;
    put(words, b"under")?;
    put_name(words, under)?;
    put_families(words, families)
}

/// Appends a speaker, its verb and the names of tasks.
fn put_list(
    words: &mut Vec<Word>,
    by: &Name,
    verb: Verb,
    tasks: &TaskNames,
) -> Result<(), AllocError>
    ensures { OnOk result (words.new.items ≡ words.old.items ++ speaker by.now ∷ verb_word verb
        ∷ tasks.now) }
{
    put_speech(words, by, verb)?;
    put_tasks(words, tasks)
}

/// Appends a speaker, its verb and an entry of another task.
fn put_call(
    words: &mut Vec<Word>,
    by: &Name,
    verb: Verb,
    callee: &Name,
    entry: &EntryName,
) -> Result<(), AllocError>
    ensures { OnOk result (words.new.items ≡ words.old.items ++ speaker by.now ∷ verb_word verb
        ∷ callee.now ∷ entry_words entry.now) }
{
    put_object(words, by, verb, callee)?;
    put_entry(words, entry)
}

fn put_call_within(
    words: &mut Vec<Word>,
    by: &Name,
    callee: &Name,
    entry: &EntryName,
    duration: i64,
) -> Result<(), AllocError>
    ensures { OnOk result (words.new.items ≡ words.old.items
        ++ words_of (statements.CallWithin by.now callee.now entry.now duration)) }
{
    put_call(words, by, Verb::Call, callee, entry)?;
    put(words, b"within")?;
    put_number(words, duration)
}

fn put_accept(words: &mut Vec<Word>, by: &Name, entry: &EntryName) -> Result<(), AllocError>
    ensures { OnOk result (words.new.items ≡ words.old.items
        ++ words_of (statements.Accept by.now entry.now)) }
{
    put_speech(words, by, Verb::Accept)?;
    put_entry(words, entry)
}

fn put_delay(words: &mut Vec<Word>, by: &Name, duration: i64) -> Result<(), AllocError>
    ensures { OnOk result (words.new.items ≡ words.old.items
        ++ words_of (statements.Delay by.now duration)) }
{
    put_speech(words, by, Verb::Delay)?;
    put_number(words, duration)
}

/// Appends a speaker that shows an attribute of a task.
fn put_show(
    words: &mut Vec<Word>,
    by: &Name,
    attribute: &[u8],
    task: &Name,
) -> Result<(), AllocError>
    requires { length attribute.now ≤ 20 }
    ensures { OnOk result (words.new.items ≡ words.old.items ++ speaker by.now
        ∷ verb_word verbs.Show ∷ attribute.now ∷ task.now ∷ []) }
{
    put_speech(words, by, Verb::Show)?;
    put(words, attribute)?;
    put_name(words, task)
}

fn put_show_count(words: &mut Vec<Word>, by: &Name, entry: &EntryName) -> Result<(), AllocError>
    ensures { OnOk result (words.new.items ≡ words.old.items
        ++ words_of (statements.ShowCount by.now entry.now)) }
{
    put_speech(words, by, Verb::Show)?;
    put(words, b"count")?;
    put_entry(words, entry)
}

/// The words of a statement. The only error is `OutOfMemory`.
pub fn words(alloc: Global, statement: &Statement) -> Result<Vec<Word>, Cause>
    ensures words { IfOk result (λ words. words.items ≡ words_of statement.now) }
    ensures memory { IsOkUnless result Cause.OutOfMemory }
{
    let mut words = Vec::new(alloc);
    put_statement(&mut words, statement)?;
    Ok(words)
}

fn put_statement(words: &mut Vec<Word>, statement: &Statement) -> Result<(), AllocError>
    ensures { OnOk result (words.new.items ≡ words.old.items ++ words_of statement.now) }
{
    match statement {
        Statement::Tick { now } => put_tick(words, *now),
        Statement::Open { by, block } => put_object(words, by, Verb::Open, block),
        Statement::Create {
            by,
            task,
            under,
            families,
        } => put_create(words, by, task, under, families),
        Statement::Activate { by, tasks } => put_list(words, by, Verb::Activate, tasks),
        Statement::Up { by } => put_speech(words, by, Verb::Up),
        Statement::Fail { by } => put_speech(words, by, Verb::Fail),
        Statement::Call { by, callee, entry } => put_call(words, by, Verb::Call, callee, entry),
        Statement::CallWithin {
            by,
            callee,
            entry,
            duration,
        } => put_call_within(words, by, callee, entry, *duration),
        Statement::Try { by, callee, entry } => put_call(words, by, Verb::Try, callee, entry),
        Statement::Accept { by, entry } => put_accept(words, by, entry),
        Statement::Select {
            by,
            pick,
            choices,
            tail,
        } => put_select(words, by, *pick, choices, tail.get()),
        Statement::End { by } => put_speech(words, by, Verb::End),
        Statement::Raise { by } => put_speech(words, by, Verb::Raise),
        Statement::Close { by } => put_speech(words, by, Verb::Close),
        Statement::Delay { by, duration } => put_delay(words, by, *duration),
        Statement::Complete { by } => put_speech(words, by, Verb::Complete),
        Statement::Abort { by, tasks } => put_list(words, by, Verb::Abort, tasks),
        Statement::ShowCallable { by, task } => put_show(words, by, b"callable", task),
        Statement::ShowTerminated { by, task } => put_show(words, by, b"terminated", task),
        Statement::ShowCount { by, entry } => put_show_count(words, by, entry),
    }
}
