//! What the tests share, each in a function of its own: a test that has it beside all that it owns takes long to prove.

use ada_script::{Cause, Script, read};
use std::fmt::Debug;
use std::process::Abort;
use std::test::Fail;

/// The script of a text.
pub fn script_of<R: AllocGlobal>(rt: &R, text: &[u8]) -> Result<Script, Fail> {
    Ok(read(rt.alloc(), text)?)
}

/// A test fails where a cause was found.
pub fn passed(answer: Result<(), Cause>) -> Result<(), Fail> {
    Ok(answer?)
}

/// Lends the script of a text to what is asked of it.
pub fn with_script<R: AllocGlobal, F: FnOnce(&R, &Script) -> Result<(), Cause>>(
    rt: &R,
    text: &[u8],
    ask: F,
) -> Result<(), Fail>
    requires { F.IsAlwaysCallable ask }
{
    let script = script_of(rt, text)?;
    passed(ask(rt, &script))
}

/// What was found is the wanted.
pub fn assert_found<R: Abort, T: PartialEq + Debug>(rt: &R, found: &T, wanted: &T) {
    assert_eq!(rt; found, wanted);
}

/// The text is the wanted one.
pub fn assert_text<R: Abort>(rt: &R, text: &[u8], wanted: &[u8]) {
    assert_found(rt, &text, &wanted);
}
