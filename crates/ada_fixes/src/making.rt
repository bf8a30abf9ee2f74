//! Making repairs, each only if it is one.

ghost use Rattle.std.specs.Prelude.{◌≡◌, ◌||◌, IfOk, OnOk, List, [], ℕ};
ghost use Rattle.std.specs.List.{list_all};
ghost use Rattle.ada_statements.specs.Text.{is_name_byte as name_byte};
ghost use Rattle.ada_fixes.specs.Fixes.{is_foreign as foreign, is_printable as printable, is_long_name as long_name};
ghost use Rattle.ada_fixes.specs.Fixes.{are_dashes as dashes, is_rewritten as rewritten, is_ended as ended, IsFixed};
ghost use Rattle.ada_fixes.specs.internal.Until.{IsFixedUntil};

use crate::repair::Repair;
use std::alloc::{AllocError, Global};

fn is_printable(byte: u8) -> bool
    ensures { result ≡ printable byte }
{
    32 <= byte && byte <= 126
}

// Whether a byte is neither printable ASCII nor of the end of a line.
fn is_foreign(byte: u8) -> bool
    ensures { result ≡ foreign byte }
{
    !is_printable(byte) && (byte != b'\n' && byte != b'\r')
}

fn is_name_byte(byte: u8) -> bool
    ensures { result ≡ name_byte byte }
{
    byte.is_ascii_alphanumeric() || byte == b'_'
}

fn are_foreign(bytes: &[u8]) -> bool
    ensures { result ≡ list_all foreign bytes.now }
{
    bytes.iter().all(|byte| is_foreign(*byte))
}

fn are_printable(bytes: &[u8]) -> bool
    ensures { result ≡ list_all printable bytes.now }
{
    bytes.iter().all(|byte| is_printable(*byte))
}

fn are_name_bytes(bytes: &[u8]) -> bool
    ensures { result ≡ list_all name_byte bytes.now }
{
    bytes.iter().all(|byte| is_name_byte(*byte))
}

fn are_dashes(bytes: &[u8]) -> bool
    ensures { result ≡ dashes bytes.now }
{
    match bytes {
        [first, second] => *first == b'-' && *second == b'-',
        _ => false,
    }
}

/// Whether bytes have the form of a name, but are more than 16.
pub fn is_long_name(bytes: &[u8]) -> bool
    ensures { result ≡ long_name bytes.now }
{
    let [first, others @ ..] = bytes else {
        return false;
    };
    if others.len() < 16 {
        return false;
    }
    first.is_ascii_alphabetic() && are_name_bytes(others)
}

// Whether a part of a line may become these bytes.
fn is_rewritten(part: &[u8], instead: &[u8]) -> bool
    ensures { result ≡ rewritten part.now instead.now }
{
    (are_foreign(part) || (is_long_name(part) || are_dashes(part)))
        && (are_printable(instead) && instead.len() <= part.len())
}

// Whether the end of a line may become these bytes.
fn is_ended(part: &[u8], instead: &[u8]) -> bool
    ensures { result ≡ ended part.now instead.now }
{
    let [first] = part else {
        return false;
    };
    match instead {
        [] => *first == b'\r',
        [feed] => *first == b'\r' && *feed == b'\n',
        _ => false,
    }
}

// Keeps so many bytes of what is left, and says what is left then.
#[tactic(auto, using(crate::proofs::Further::kept_further))]
fn keep<'a>(all: &mut Vec<u8>, rest: &'a [u8], count: usize) -> Result<&'a [u8], AllocError>
    ensures { IfOk result (λ left. (text : List ℕ) → IsFixedUntil text rest.now all.old.items
        → IsFixedUntil text left.now all.new.items) }
{
    let (kept, left) = rest.split_at(count.min(rest.len()));
    all.extend_from_slice(kept)?;
    Ok(left)
}

// Makes a repair at the beginning of what is left, if it is one, and says what is left then.
#[tactic(auto, using(crate::proofs::Further::repaired_further))]
fn replace<'a>(all: &mut Vec<u8>, rest: &'a [u8], repair: &Repair) -> Result<&'a [u8], AllocError>
    ensures { IfOk result (λ left. (text : List ℕ) → IsFixedUntil text rest.now all.old.items
        → IsFixedUntil text left.now all.new.items) }
{
    let (part, left) = rest.split_at(repair.length.min(rest.len()));
    let instead = repair.instead.as_slice();
    if is_rewritten(part, instead) || is_ended(part, instead) {
        all.extend_from_slice(instead)?;
        Ok(left)
    } else {
        Ok(rest)
    }
}

// Keeps all that is left.
#[tactic(auto, using(crate::proofs::Further::kept_to_the_end))]
fn finish(all: &mut Vec<u8>, rest: &[u8]) -> Result<(), AllocError>
    ensures { OnOk result ((text : List ℕ) → IsFixedUntil text rest.now all.old.items
        → IsFixed text all.new.items) }
{
    all.extend_from_slice(rest)
}

/// A text with these repairs, in their order; what is none stays as it is.
#[tactic(auto, using(crate::proofs::Further::nothing_fixed))]
pub fn repaired(alloc: Global, text: &[u8], repairs: &[Repair]) -> Result<Vec<u8>, AllocError>
    ensures { IfOk result (λ all. IsFixed text.now all.items) }
{
    let mut all = Vec::with_capacity(alloc, text.len())?;
    let mut rest = text;
    for repair in repairs {
        rest = keep(&mut all, rest, repair.kept)?;
        rest = replace(&mut all, rest, repair)?;
    }
    finish(&mut all, rest)?;
    Ok(all)
}
