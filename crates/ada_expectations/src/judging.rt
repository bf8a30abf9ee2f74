//! Whether a play is as is expected.
ghost use Rattle.std.specs.Prelude.{◌≡◌, ◌++◌, IfOk, OnOk, slice_get};
ghost use Rattle.std.specs.List.{list_all, list_any};
ghost use Rattle.ada_waiting.specs.Standstill.{verdict_of};
ghost use Rattle.ada_expectations.specs.Plays.{IsPlayOf, refused_in};
ghost use Rattle.ada_expectations.specs.internal.Refusals.{refused_line};
ghost use Rattle.ada_expectations.specs.declared.expectation.Expectation.{Expectation as Comment};
ghost use Rattle.ada_expectations.specs.Expectations as expectations;

use crate::{Ending, Expectation, Expectations, Expected, expectations_in};
use ada_events::Refusal;
use ada_explain::Scene;
use ada_explain::standstill::{Standstill, write_standstill};
use ada_replay::replaying::read_script;
use ada_replay::{Account, Answer, RunFault, account_of};
use ada_script::Line;
use ada_waiting::{Verdict, verdict_in};
use std::alloc::{AllocError, Global};

/// Why a play isn't as is expected.
#[derive(Clone, Copy, Debug, PartialEq, Eq)]
pub enum Failing<'a> {
    /// What a comment says isn't so.
    Unmet(Expectation<'a>),
    /// A line is refused, and no comment says so.
    Refused { line: u32, cause: Refusal },
    /// The comment of this line says nothing known.
    Misread { line: u32 },
    /// The main program isn't terminated, no comment says how the play ends, and it was to end.
    Unfinished,
    /// No comment says anything.
    NothingExpected,
}

/// What was found of a script.
#[derive(Drop)]
pub struct Judgement<'a> {
    /// What its comments say.
    pub expected: Vec<Expectation<'a>>,
    /// How its play ends.
    pub end: Standstill,
    /// The lines that were refused, in their order.
    pub refused: Vec<RefusedLine>,
    /// Whether what comments say is so, and no other line is refused.
    pub is_met: bool,
    /// Why it isn't as is expected; nothing, if it is.
    pub failing: Vec<Failing<'a>>,
}

/// A line that was refused.
#[derive(Clone, Copy, Debug, PartialEq, Eq)]
pub struct RefusedLine {
    /// Its number, from 1.
    pub line: u32,
    pub cause: Refusal,
}

impl RefusedLine {
    // Whether this is what is expected.
    fn is(&self, expected: &Expected<'_>) -> bool
        ensures { result ≡ expectations.is_expected_by self.now expected.now }
    {
        match expected {
            Expected::Refused { line, cause } => {
                *line == self.line && *cause == self.cause.name()
            }
            Expected::Ending(_) => false,
        }
    }

    // Whether a comment says so.
    fn is_expected(&self, comments: &[Expectation<'_>]) -> bool
        ensures { result ≡ list_any
            (λ (comment : Comment). expectations.is_expected_by self.now comment.expected)
            comments.now }
    {
        comments.iter().any(|comment| self.is(&comment.expected))
    }
}

/// Plays a script, and judges the play by the comments of its text. A play that was to end, and of whose end no comment
/// says anything, has to end with the main program terminated. An `Err` says that the text is no script, or `Memory`.
pub fn judge<'a>(alloc: Global, text: &'a [u8], is_to_end: bool) -> Result<Judgement<'a>, RunFault>
    ensures met { IfOk result (λ judged. judged.is_met
        ≡ expectations.is_as_expected judged.expected.items judged.end judged.refused.items) }
    ensures play { IfOk result (λ judged. IsPlayOf text.now judged.end judged.refused.items) }
{
    let script = read_script(alloc, text)?;
    let account = account_of(alloc, script)?;
    match judgement_of(alloc, text, &account, is_to_end) {
        Ok(judgement) => Ok(judgement),
        Err(_) => Err(RunFault::Memory),
    }
}

fn judgement_of<'a>(
    alloc: Global,
    text: &'a [u8],
    account: &Account,
    is_to_end: bool,
) -> Result<Judgement<'a>, AllocError>
    ensures met { IfOk result (λ judged. judged.is_met
        ≡ expectations.is_as_expected judged.expected.items judged.end judged.refused.items) }
    ensures refused { IfOk result (λ judged. judged.refused.items
        ≡ refused_in account.now.lines.items account.now.answers.items) }
    ensures ends { IfOk result (λ judged. judged.end.verdict ≡ verdict_of account.now.kernel) }
{
    let end = end_of(alloc, account)?;
    let refused = refused_lines(alloc, &account.lines, &account.answers)?;
    let Expectations { list, misread } = expectations_in(alloc, text)?;
    let mut failing = Vec::new(alloc);
    push_misread(&mut failing, &misread)?;
    push_unmet(&mut failing, &list, end, &refused)?;
    push_unexpected(&mut failing, &list, &refused)?;
    if is_to_end && is_unfinished(&list, end) {
        failing.push(Failing::Unfinished)?;
    }
    if list.is_empty() && misread.is_empty() && !is_to_end {
        failing.push(Failing::NothingExpected)?;
    }
    let is_met = is_as_expected(&list, end, &refused);
    Ok(Judgement {
        expected: list,
        end,
        refused,
        is_met,
        failing,
    })
}

fn push_misread(failing: &mut Vec<Failing<'_>>, misread: &[u32]) -> Result<(), AllocError> {
    for line in misread {
        failing.push(Failing::Misread { line: *line })?;
    }
    Ok(())
}

// Puts a line to those that were refused, if it was.
fn push_if_refused(
    refused: &mut Vec<RefusedLine>,
    line: u32,
    answer: Option<Answer>,
) -> Result<(), AllocError>
    ensures { OnOk result (refused.new.items
        ≡ refused.old.items ++ refused_line line answer) }
{
    if let Some(Answer::Refused(cause)) = answer {
        refused.push(RefusedLine { line, cause })?;
    }
    Ok(())
}

fn answer_at(answers: &[Answer], place: usize) -> Option<Answer>
    ensures { result ≡ slice_get answers.now place }
{
    answers.get(place).copied()
}

// The lines that were refused.
fn refused_lines(
    alloc: Global,
    lines: &[Line],
    answers: &[Answer],
) -> Result<Vec<RefusedLine>, AllocError>
    ensures { IfOk result (λ refused. refused.items ≡ refused_in lines.now answers.now) }
{
    let mut refused = Vec::new(alloc);
    for i in 0..lines.len() {
        push_if_refused(&mut refused, lines[i].line, answer_at(answers, i))?;
    }
    Ok(refused)
}

// How a play ends.
fn end_of(alloc: Global, account: &Account) -> Result<Standstill, AllocError>
    ensures { IfOk result (λ end. end.verdict ≡ verdict_of account.now.kernel) }
{
    let verdict = verdict_in(&account.kernel);
    let told = write_standstill(&mut String::new(alloc), Scene::at_end(account))?;
    Ok(Standstill { verdict, ..told })
}

// Whether one of the refused lines is what is expected.
fn is_among(refused: &[RefusedLine], expected: &Expected<'_>) -> bool
    ensures { result ≡ list_any
        (λ line. expectations.is_expected_by line expected.now) refused.now }
{
    refused.iter().any(|line| line.is(expected))
}

// Whether a play is so.
fn is_met(expected: &Expected<'_>, end: Standstill, refused: &[RefusedLine]) -> bool
    ensures { result ≡ expectations.is_met end refused.now expected.now }
{
    match expected {
        Expected::Ending(ending) => ending.is_so(end),
        Expected::Refused { .. } => is_among(refused, expected),
    }
}

// Whether whatever comments say is so.
fn are_met(comments: &[Expectation<'_>], end: Standstill, refused: &[RefusedLine]) -> bool
    ensures { result ≡ list_all
        (λ (comment : Comment). expectations.is_met end refused.now comment.expected)
        comments.now }
{
    comments
        .iter()
        .all(|comment| is_met(&comment.expected, end, refused))
}

// Whether of each refused line a comment says so.
fn are_expected(refused: &[RefusedLine], comments: &[Expectation<'_>]) -> bool
    ensures { result ≡ list_all (λ line. list_any
        (λ (comment : Comment). expectations.is_expected_by line comment.expected)
        comments.now)
        refused.now }
{
    refused.iter().all(|line| line.is_expected(comments))
}

// Whether both are so.
fn is_as_expected(comments: &[Expectation<'_>], end: Standstill, refused: &[RefusedLine]) -> bool
    ensures { result ≡ expectations.is_as_expected comments.now end refused.now }
{
    are_met(comments, end, refused) && are_expected(refused, comments)
}

fn push_unmet<'a>(
    failing: &mut Vec<Failing<'a>>,
    list: &[Expectation<'a>],
    end: Standstill,
    refused: &[RefusedLine],
) -> Result<(), AllocError> {
    for expectation in list {
        if !is_met(&expectation.expected, end, refused) {
            failing.push(Failing::Unmet(*expectation))?;
        }
    }
    Ok(())
}

fn push_unexpected<'a>(
    failing: &mut Vec<Failing<'a>>,
    list: &[Expectation<'a>],
    refused: &[RefusedLine],
) -> Result<(), AllocError> {
    for line in refused {
        if !line.is_expected(list) {
            failing.push(Failing::Refused {
                line: line.line,
                cause: line.cause,
            })?;
        }
    }
    Ok(())
}

// Whether nothing is said of the end, and the main program isn't terminated.
fn is_unfinished(list: &[Expectation<'_>], end: Standstill) -> bool {
    !list
        .iter()
        .any(|expectation| expectation.expected.is_ending())
        && !Ending::Terminated.is_so(end)
        && end.verdict != Verdict::Finished
}
