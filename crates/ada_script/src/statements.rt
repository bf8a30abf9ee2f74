//! Reading the statements.

ghost use Rattle.std.specs.Prelude.{◌≡◌, ◌⊎◌, Ok, Err, option_copied, OnOk, IfOk, IfErr, IsOk};
ghost use Rattle.ada_statements.specs.Scope.{MayStand};
ghost use Rattle.ada_script.specs.Spelling.{words_of};
ghost use Rattle.ada_script.specs.Script.{IsOfWords, IsOfNoWords};
ghost use Rattle.ada_script.specs.internal.Reading.{Gives, Writes, verb_at, open_at, create_at, activate_at, abort_at, call_statement_at};
ghost use Rattle.ada_script.specs.internal.Reading.{try_at, accept_at, delay_at, tick_at};
ghost use Rattle.ada_script.specs.internal.Reading.{select_at, show_at, act_at, before_colon, speaker_of, speech_at, statement_at, statement_of};

use crate::cursor::Words;
use crate::fault::Fault;
use crate::lists::{read_families, read_tasks};
use crate::parts::{
    is_name, read_end, read_entry, read_keyword, read_master, read_moment, read_new_name,
    read_pick, read_task, read_word,
};
use crate::select::read_alternatives;
use crate::verb::{Verb, verb_of};
use ada_statements::{Cause, Name, Names, Statement};
use std::alloc::Global;

// Puts what was read into its place.
#[inline(always)]
fn put(place: &mut Statement, statement: Statement) -> Result<(), Fault>
    ensures { IsOk result × (place.new ≡ statement) }
{
    *place = statement;
    Ok(())
}

/// Takes a verb.
#[tactic(auto, unfolding(crate::specs::internal::Reading::verb_at))]
fn read_verb(words: &mut Words) -> Result<Verb, Fault>
    ensures { Gives result words.new (verb_at words.old) }
{
    let word = read_word(words)?;
    verb_of(word).ok_or(Fault::BadStatement)
}

#[tactic(auto, unfolding(crate::specs::internal::Reading::tick_at))]
fn read_tick(words: &mut Words, statement: &mut Statement) -> Result<(), Fault>
    ensures { Writes result statement.new words.new (tick_at words.old) }
{
    let now = read_moment(words)?;
    put(statement, Statement::Tick { now })
}

#[tactic(auto, unfolding(crate::specs::internal::Reading::open_at))]
fn read_open(
    names: &Names,
    by: Name,
    words: &mut Words,
    statement: &mut Statement,
) -> Result<(), Fault>
    ensures { Writes result statement.new words.new (open_at names.now by words.old) }
{
    let block = read_new_name(names, words)?;
    put(statement, Statement::Open { by, block })
}

#[tactic(auto, unfolding(crate::specs::internal::Reading::create_at))]
fn read_create(
    alloc: Global,
    names: &Names,
    by: Name,
    words: &mut Words,
    statement: &mut Statement,
) -> Result<(), Fault>
    ensures { Writes result statement.new words.new (create_at names.now by words.old) }
{
    let task = read_new_name(names, words)?;
    read_keyword(b"under", words)?;
    let under = read_master(names, words)?;
    let families = read_families(alloc, words)?;
    put(
        statement,
        Statement::Create {
            by,
            task,
            under,
            families,
        },
    )
}

#[tactic(auto, unfolding(crate::specs::internal::Reading::activate_at))]
fn read_activate(
    alloc: Global,
    names: &Names,
    by: Name,
    words: &mut Words,
    statement: &mut Statement,
) -> Result<(), Fault>
    ensures { Writes result statement.new words.new (activate_at names.now by words.old) }
{
    let tasks = read_tasks(alloc, names, words)?;
    put(statement, Statement::Activate { by, tasks })
}

#[tactic(auto, unfolding(crate::specs::internal::Reading::abort_at))]
fn read_abort(
    alloc: Global,
    names: &Names,
    by: Name,
    words: &mut Words,
    statement: &mut Statement,
) -> Result<(), Fault>
    ensures { Writes result statement.new words.new (abort_at names.now by words.old) }
{
    let tasks = read_tasks(alloc, names, words)?;
    put(statement, Statement::Abort { by, tasks })
}

#[tactic(auto, unfolding(crate::specs::internal::Reading::call_statement_at))]
fn read_call(
    names: &Names,
    by: Name,
    words: &mut Words,
    statement: &mut Statement,
) -> Result<(), Fault>
    ensures { Writes result statement.new words.new (call_statement_at names.now by words.old) }
{
    let callee = read_task(names, words)?;
    let entry = read_entry(names, &callee, words)?;
    if words.is_over() {
        return put(statement, Statement::Call { by, callee, entry });
    }
    read_keyword(b"within", words)?;
    let duration = read_moment(words)?;
    put(
        statement,
        Statement::CallWithin {
            by,
            callee,
            entry,
            duration,
        },
    )
}

#[tactic(auto, unfolding(crate::specs::internal::Reading::try_at))]
fn read_try(
    names: &Names,
    by: Name,
    words: &mut Words,
    statement: &mut Statement,
) -> Result<(), Fault>
    ensures { Writes result statement.new words.new (try_at names.now by words.old) }
{
    let callee = read_task(names, words)?;
    let entry = read_entry(names, &callee, words)?;
    put(statement, Statement::Try { by, callee, entry })
}

#[tactic(auto, unfolding(crate::specs::internal::Reading::accept_at))]
fn read_accept(
    names: &Names,
    by: Name,
    words: &mut Words,
    statement: &mut Statement,
) -> Result<(), Fault>
    ensures { Writes result statement.new words.new (accept_at names.now by words.old) }
{
    let entry = read_entry(names, &by, words)?;
    put(statement, Statement::Accept { by, entry })
}

#[tactic(auto, unfolding(crate::specs::internal::Reading::delay_at))]
fn read_delay(by: Name, words: &mut Words, statement: &mut Statement) -> Result<(), Fault>
    ensures { Writes result statement.new words.new (delay_at by words.old) }
{
    let duration = read_moment(words)?;
    put(statement, Statement::Delay { by, duration })
}

#[tactic(auto, unfolding(crate::specs::internal::Reading::select_at))]
fn read_select(
    alloc: Global,
    names: &Names,
    by: Name,
    words: &mut Words,
    statement: &mut Statement,
) -> Result<(), Fault>
    ensures { Writes result statement.new words.new (select_at names.now by words.old) }
{
    let pick = read_pick(words)?;
    let (choices, tail) = read_alternatives(alloc, names, &by, words)?;
    put(
        statement,
        Statement::Select {
            by,
            pick,
            choices,
            tail,
        },
    )
}

#[tactic(auto, unfolding(crate::specs::internal::Reading::show_at))]
fn read_show(
    names: &Names,
    by: Name,
    words: &mut Words,
    statement: &mut Statement,
) -> Result<(), Fault>
    ensures { Writes result statement.new words.new (show_at names.now by words.old) }
{
    let word = read_word(words)?;
    if word == b"callable".as_slice() {
        let task = read_task(names, words)?;
        put(statement, Statement::ShowCallable { by, task })
    } else if word == b"terminated".as_slice() {
        let task = read_task(names, words)?;
        put(statement, Statement::ShowTerminated { by, task })
    } else if word == b"count".as_slice() {
        let entry = read_entry(names, &by, words)?;
        put(statement, Statement::ShowCount { by, entry })
    } else {
        Err(Fault::BadStatement)
    }
}

/// Takes what the speaker does behind its verb.
#[tactic(auto, unfolding(crate::specs::internal::Reading::act_at))]
fn read_act(
    alloc: Global,
    names: &Names,
    by: Name,
    verb: Verb,
    words: &mut Words,
    statement: &mut Statement,
) -> Result<(), Fault>
    ensures { Writes result statement.new words.new (act_at names.now by verb words.old) }
{
    match verb {
        Verb::Open => read_open(names, by, words, statement),
        Verb::Create => read_create(alloc, names, by, words, statement),
        Verb::Activate => read_activate(alloc, names, by, words, statement),
        Verb::Up => put(statement, Statement::Up { by }),
        Verb::Fail => put(statement, Statement::Fail { by }),
        Verb::Call => read_call(names, by, words, statement),
        Verb::Try => read_try(names, by, words, statement),
        Verb::Accept => read_accept(names, by, words, statement),
        Verb::Select => read_select(alloc, names, by, words, statement),
        Verb::End => put(statement, Statement::End { by }),
        Verb::Raise => put(statement, Statement::Raise { by }),
        Verb::Close => put(statement, Statement::Close { by }),
        Verb::Delay => read_delay(by, words, statement),
        Verb::Complete => put(statement, Statement::Complete { by }),
        Verb::Abort => read_abort(alloc, names, by, words, statement),
        Verb::Show => read_show(names, by, words, statement),
    }
}

/// The word without the colon at its end, if there is one.
fn before_last_colon(word: &[u8]) -> Option<&[u8]>
    ensures { option_copied result ≡ before_colon word.now }
{
    match word {
        [name @ .., b':'] => Some(name),
        _ => None,
    }
}

/// The speaker, whose name stands before a colon.
#[tactic(auto, unfolding(crate::specs::internal::Reading::speaker_of))]
fn speaker(names: &Names, word: &[u8]) -> Result<Name, Fault>
    ensures { result ≡ speaker_of names.now word.now }
{
    let Some(name) = before_last_colon(word) else {
        return Err(Fault::BadStatement);
    };
    if !is_name(name) {
        return Err(Fault::BadStatement);
    }
    let Some(task) = names.task_name(name) else {
        return Err(Fault::UnknownName);
    };
    Ok(task.copy())
}

/// Takes the statement of the speaker that the line's first word names.
#[tactic(auto, unfolding(crate::specs::internal::Reading::speech_at))]
fn read_speech(
    alloc: Global,
    names: &Names,
    first: &[u8],
    words: &mut Words,
    statement: &mut Statement,
) -> Result<(), Fault>
    ensures { Writes result statement.new words.new (speech_at names.now first.now words.old) }
{
    let by = speaker(names, first)?;
    let verb = read_verb(words)?;
    read_act(alloc, names, by, verb, words, statement)
}

#[tactic(auto, unfolding(crate::specs::internal::Reading::statement_at))]
fn read_open_statement(
    alloc: Global,
    names: &Names,
    words: &mut Words,
    statement: &mut Statement,
) -> Result<(), Fault>
    ensures { Writes result statement.new words.new (statement_at names.now words.old) }
{
    let first = read_word(words)?;
    if first == b"tick".as_slice() {
        read_tick(words, statement)
    } else {
        read_speech(alloc, names, first, words, statement)
    }
}

/// Reads the statement of a line's words, where these names are declared. On an `Err` the place has some
/// statement.
#[tactic(auto, unfolding(crate::specs::internal::Reading::statement_of))]
pub(crate) fn read_statement(
    alloc: Global,
    names: &Names,
    words: &mut Words,
    statement: &mut Statement,
) -> Result<(), Fault>
    ensures ok { OnOk result (statement_of names.now words.old ≡ Ok statement.new) }
    ensures err { IfErr result (λ fault.
        (fault ≡ Fault.OutOfMemory) ⊎ (statement_of names.now words.old ≡ Err fault)) }
{
    read_open_statement(alloc, names, words, statement)?;
    read_end(words)?;
    Ok(())
}

/// Reads the words of a line as a statement, where these names are declared. On an `Err` the words are left that stand
/// after the faulty one, which is the last that was taken, or all were taken and one is missing.
pub fn read_words(alloc: Global, names: &Names, words: &mut Words) -> Result<Statement, Cause>
    ensures ok { IfOk result (λ s. MayStand names.now s × (words_of s ≡ words.old)) }
    ensures err { IfErr result (λ cause.
        (cause ≡ Cause.OutOfMemory) ⊎ (IsOfWords cause × IsOfNoWords names.now words.old)) }
{
    let mut statement = Statement::Tick { now: 0 };
    read_statement(alloc, names, words, &mut statement)?;
    Ok(statement)
}
