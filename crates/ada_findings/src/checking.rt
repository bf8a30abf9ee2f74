//! The check of a text.
ghost use Rattle.std.specs.Prelude.{◌≡◌, IfErr, IfOk, List, MatchOption};
ghost use Rattle.ada_findings.specs.Findings.{IsFoundIn};
ghost use Rattle.ada_findings.specs.declared.fault.Finding.TheVariants.{Nothing, Faulty};
ghost use Rattle.ada_script.specs.declared.script.Line.{Line};
ghost use Rattle.ada_script.specs.Script.{IsScript};
ghost use Rattle.ada_replay.specs.declared.fault.RunFault.TheVariants.{Memory};

use crate::Finding;
use ada_fixes::fix;
use ada_lint::{Review, print_review, review_of, write_review};
use ada_replay::RunFault;
use std::alloc::{AllocError, Global};

/// In which form findings are told.
#[derive(Clone, Copy, Debug, PartialEq, Eq)]
pub enum Form<'a> {
    /// As text, of the file that is called so.
    Text(&'a str),
    /// As JSON.
    Json,
}

// What is told of a text in this form, so many findings at most.
fn told_of(
    alloc: Global,
    form: Form<'_>,
    text: &[u8],
    review: &Review,
    most: usize,
) -> Result<String, AllocError> {
    match form {
        Form::Text(file) => print_review(alloc, file, text, review, most),
        Form::Json => write_review(alloc, review, most),
    }
}

// What was found, by the first fault.
fn finding_of(review: &Review) -> Finding
    ensures { MatchOption review.now.fault (result ≡ Nothing) (λ fault. result ≡ Faulty) }
{
    match review.fault {
        None => Finding::Nothing,
        Some(_) => Finding::Faulty,
    }
}

/// Checks a text: what is told of it in this form, so many findings at most, and what was found. An `Err` is `Memory`.
pub fn check(
    alloc: Global,
    form: Form<'_>,
    text: &[u8],
    most: usize,
) -> Result<(String, Finding), RunFault>
    ensures found { IfOk result (λ checked. IsFoundIn text.now checked.1) }
    ensures memory { IfErr result (λ fault. fault ≡ Memory) }
{
    let review = review_of(alloc, text).map_err(|_| RunFault::Memory)?;
    let told = told_of(alloc, form, text, &review, most).map_err(|_| RunFault::Memory)?;
    Ok((told, finding_of(&review)))
}

/// A text with its repairs, what is told of it, and what was found in it.
#[derive(Drop)]
pub struct Repaired {
    pub text: Vec<u8>,
    pub told: String,
    pub finding: Finding,
}

/// Repairs a text where it is certain how, and checks what comes of it: what is told of that in this form, so many
/// findings at most, each at its place in the text as given. An `Err` is `Memory`.
pub fn repair(alloc: Global, form: Form<'_>, text: &[u8], most: usize) -> Result<Repaired, RunFault>
    ensures found { IfOk result (λ repaired. IsFoundIn repaired.text.items repaired.finding) }
    ensures script { IfOk result (λ repaired. (lines : List Line) → IsScript text.now lines
        → repaired.text.items ≡ text.now) }
    ensures memory { IfErr result (λ fault. fault ≡ Memory) }
{
    let fixed = fix(alloc, text).map_err(|_| RunFault::Memory)?;
    let told = told_of(alloc, form, &fixed.given, &fixed.left, most);
    Ok(Repaired {
        told: told.map_err(|_| RunFault::Memory)?,
        finding: finding_of(&fixed.left),
        text: fixed.text,
    })
}
