//! Words (chapter 2).

use crate::common::{assert_does, assert_not_done, assert_read, assert_refused};
use ada_text::{Cause, Place};
use std::test::Fail;

/// 2.2 to 2.7.
#[test]
fn reads_words(rt: HostRuntime) -> Result<(), Fail> {
    assert_does(
        &rt,
        b"A := 1_000 + 16#FF# + 2#1010_1010#E2 + 1E3 + 1e+3; -- a comment: caf\xc3\xa9 \xe9",
    )?;
    assert_does(&rt, b"a_1 := A_1; IF TRUE Then NULL; eNd If;")?;
    Ok(())
}

/// What is no word, or no number.
#[test]
fn refuses_words(rt: HostRuntime) -> Result<(), Fail> {
    assert_not_done(&rt, b"A := 1__0;", 6, Cause::BadNumber)?;
    assert_not_done(&rt, b"A := 1_;", 6, Cause::BadNumber)?;
    assert_not_done(&rt, b"A := 16#G#;", 6, Cause::BadNumber)?;
    assert_not_done(&rt, b"A := 1#0#;", 6, Cause::BadNumber)?;
    assert_not_done(
        &rt,
        b"A := 9_223_372_036_854_775_808;",
        6,
        Cause::NumberTooLarge,
    )?;
    assert_not_done(&rt, b"A := 1B;", 6, Cause::BadNumber)?;
    assert_not_done(&rt, b"if A = 1then null; end if;", 8, Cause::BadNumber)?;
    assert_not_done(&rt, b"A__B := 1;", 1, Cause::BadName)?;
    assert_not_done(&rt, b"A := B_ + 1;", 6, Cause::BadName)?;
    assert_not_done(&rt, b"A := #;", 6, Cause::BadCharacter)?;
    assert_not_done(&rt, b"A := \xe9;", 6, Cause::NotAscii)?;
    assert_not_done(&rt, b"PUT (\"abc);", 6, Cause::OpenText)?;
    Ok(())
}

/// Lines end at line feeds, and columns count characters, a tab as one (2.2).
#[test]
fn counts_lines_and_columns(rt: HostRuntime) {
    assert_refused(
        &rt,
        b"-- \xc3\xa9\n\t\t#",
        Place { line: 2, column: 3 },
        Cause::BadCharacter,
    );
    assert_refused(
        &rt,
        b"-- one\r\n-- two\r\n  #",
        Place { line: 3, column: 3 },
        Cause::BadCharacter,
    );
    assert_refused(
        &rt,
        b"with A;",
        Place { line: 1, column: 6 },
        Cause::ContextClauses,
    );
    assert_refused(
        &rt,
        b"with TEXT_IO; use A;",
        Place {
            line: 1,
            column: 19,
        },
        Cause::UseClauses,
    );
    assert_refused(
        &rt,
        b"use TEXT_IO;",
        Place { line: 1, column: 1 },
        Cause::UseWithoutWith,
    );
    assert_refused(
        &rt,
        b"package P is",
        Place { line: 1, column: 1 },
        Cause::Packages,
    );
    assert_read(&rt, b"with Text_IO; procedure P is begin null; end;");
}
