//! Expressions (chapter 4).

use crate::common::{assert_does, assert_not_done, unexpected, wanted};
use ada_text::{Cause, Kind, Wanted};
use std::test::Fail;

/// 4.1 to 4.7.
#[test]
fn reads_expressions(rt: HostRuntime) -> Result<(), Fail> {
    assert_does(
        &rt,
        b"A := -B + C * D ** 2 mod 3 rem 4 / 5 - abs E & F; B := not C and D and E;",
    )?;
    assert_does(
        &rt,
        b"A := B and then C and then (D or else E); A := B < C or B >= C or B /= C; A := B xor C;",
    )?;
    assert_does(
        &rt,
        b"A := B in 1 .. 2; A := B not in T; A := B in C'RANGE; A := T'(1, 2); A := T'(X);
          A := T (X);",
    )?;
    assert_does(
        &rt,
        b"A := COLOUR'POS (COLOUR'SUCC (B)); A := B'COUNT + C (1).E'COUNT;
          A := T (1)'CALLABLE; A := (1 => 2, others => 3);",
    )?;
    assert_does(
        &rt,
        b"A := 'x'; A := '''; A := T'('('); PUT (\"a \"\" b\" & \"\");",
    )?;
    Ok(())
}

/// Relations with one logical operator between them (4.4).
#[test]
fn refuses_mixed_operators(rt: HostRuntime) -> Result<(), Fail> {
    assert_not_done(&rt, b"A := B and C or D;", 14, Cause::MixedOperators)?;
    assert_not_done(&rt, b"A := B and then C and D;", 19, Cause::MixedOperators)?;
    assert_not_done(
        &rt,
        b"A := (1, 2;",
        11,
        wanted(Kind::RightParenthesis, Kind::Semicolon),
    )?;
    assert_not_done(
        &rt,
        b"A := T'FLOOR (2);",
        8,
        unexpected(Wanted::Attribute, Kind::Identifier),
    )?;
    assert_not_done(
        &rt,
        b"A := (1 | 2);",
        12,
        wanted(Kind::Arrow, Kind::RightParenthesis),
    )?;
    Ok(())
}

/// Ranges and `others` where a value is wanted (4.1.2, 4.3, 6.4).
#[test]
fn refuses_ranges_as_values(rt: HostRuntime) -> Result<(), Fail> {
    assert_not_done(&rt, b"A := B (1 .. 3);", 9, Cause::Slices)?;
    assert_not_done(&rt, b"A := B in 5;", 11, Cause::NoDiscreteRange)?;
    assert_not_done(&rt, b"A (2, T range 1 .. 3) := B;", 7, Cause::Slices)?;
    assert_not_done(&rt, b"A := (1 .. 3);", 7, Cause::Slices)?;
    assert_not_done(&rt, b"A := (1 .. 3, 5 => 2);", 7, Cause::Slices)?;
    assert_not_done(
        &rt,
        b"A := (1, others);",
        16,
        wanted(Kind::Arrow, Kind::RightParenthesis),
    )?;
    Ok(())
}
