//! The words of statements.

use crate::common::{assert_text, passed, script_of};
use ada_script::{Cause, Script, words};
use std::alloc::Global;
use std::process::Abort;
use std::test::Fail;

/// Each form of each statement.
const STATEMENTS: &[u8] = b"main: create S under main E F 1 3
main: open B
main: create C under B
main: create T under S G -1 -1 H 0 0
main: activate
main: activate S C
S: up
C: fail
C: call S E
C: call S F 2
C: call S F -3 within 10
C: call S E within -10
C: try S E
C: try S F 1
S: accept E
S: accept F 3
S: select 4294967295 else
S: select 0
S: select 1 accept E
S: select 2 accept E or closed accept F 1 else
S: select 3 accept F 2 or terminate
S: select 4 closed accept E or closed terminate
S: select 5 delay 5 or closed delay -5
S: select 6 accept E or delay 0
S: end
S: raise
main: close
C: delay 7
C: delay -7
C: complete
main: abort
main: abort S C
C: show callable S
C: show terminated main
S: show count E
S: show count F 2
tick 9223372036854775807
";

/// The words of a script's statements with a space between them, and a line feed behind each statement.
fn spelled(alloc: Global, script: &Script) -> Result<Vec<u8>, Cause> {
    let mut text = Vec::new(alloc);
    for line in script.lines() {
        for (place, word) in words(alloc, &line.statement)?.iter().enumerate() {
            if place > 0 {
                text.push(b' ')?;
            }
            text.extend_from_slice(word.as_bytes())?;
        }
        text.push(b'\n')?;
    }
    Ok(text)
}

fn assert_words<R: Abort + AllocGlobal>(
    rt: &R,
    script: &Script,
    wanted: &[u8],
) -> Result<(), Cause> {
    let text = spelled(rt.alloc(), script)?;
    assert_text(rt, &text, wanted);
    Ok(())
}

/// The words of a text's statements.
fn assert_spelled<R: Abort + AllocGlobal>(rt: &R, text: &[u8], wanted: &[u8]) -> Result<(), Fail> {
    let script = script_of(rt, text)?;
    passed(assert_words(rt, &script, wanted))
}

// Where there is memory, each form is read, and its words are found.
#[test]
fn reader_of_scripts_gives_up(rt: HostRuntime) -> Result<(), Fail> {
    assert_spelled(&rt, STATEMENTS, STATEMENTS)
}

#[test]
fn spells_what_spaces_part(rt: HostRuntime) -> Result<(), Fail> {
    assert_spelled(
        &rt,
        b"# a comment\n\nmain:   create S under main F -1 3  G\n  tick -5 ",
        b"main: create S under main F -1 3 G\ntick -5\n",
    )
}
