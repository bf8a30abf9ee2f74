//! Declarations (chapter 3), of subprograms (6) and tasks (9) too.

use crate::common::{assert_declares, assert_not_declared, unexpected, wanted};
use ada_text::{Cause, Kind, Wanted};
use std::test::Fail;

/// 3.2 to 3.6.
#[test]
fn reads_objects_and_types(rt: HostRuntime) -> Result<(), Fail> {
    assert_declares(
        &rt,
        b"A, B : INTEGER := 1; C : constant BOOLEAN := TRUE; E, F : exception;",
    )?;
    assert_declares(
        &rt,
        b"type COLOUR is (RED, GREEN, 'x'); type T is range 1 .. 10; subtype S is T range 2 .. 5;",
    )?;
    assert_declares(
        &rt,
        b"type V is array (1 .. 3) of INTEGER; W : V := (1, 2, others => 0);
          X : array (COLOUR) of BOOLEAN;",
    )?;
    assert_declares(
        &rt,
        b"Y : array (INTEGER range 1 .. 3) of NATURAL range 0 .. 9 := (1 | 2 => 5, 3 => 6);",
    )?;
    Ok(())
}

/// 6.1, 6.3 and 9.1.
#[test]
fn reads_subprograms_and_tasks(rt: HostRuntime) -> Result<(), Fail> {
    assert_declares(
        &rt,
        b"procedure Q (A, B : in INTEGER; C : out BOOLEAN; D : in out CHARACTER);
          procedure Q2 is begin null; end;",
    )?;
    assert_declares(
        &rt,
        b"function F (A : INTEGER) return INTEGER is B : INTEGER; begin return A + B;
          exception when others => raise; end F;",
    )?;
    assert_declares(
        &rt,
        b"task T; task type U is entry E; entry G (1 .. 3) (A : INTEGER);
          entry H (A, B : out INTEGER); end U; T2 : U;",
    )?;
    assert_declares(
        &rt,
        b"task body T is begin accept E; accept G (2) (A : INTEGER) do null; end G;
          accept H (A, B : out INTEGER); end;",
    )?;
    assert_declares(
        &rt,
        b"pragma PRIORITY (3); task V is pragma PRIORITY (1); entry E (COLOUR); pragma PAGE; end;",
    )?;
    Ok(())
}

/// Types that lie outside of the subset.
#[test]
fn refuses_types_by_name(rt: HostRuntime) -> Result<(), Fail> {
    assert_not_declared(&rt, b"type T is access INTEGER;", 11, Cause::AccessTypes)?;
    assert_not_declared(
        &rt,
        b"type T is record A : INTEGER; end record;",
        11,
        Cause::Records,
    )?;
    assert_not_declared(&rt, b"type T is new INTEGER;", 11, Cause::DerivedTypes)?;
    assert_not_declared(&rt, b"type T is digits 5;", 11, Cause::RealTypes)?;
    assert_not_declared(
        &rt,
        b"type T is delta 0.1 range 0.0 .. 1.0;",
        11,
        Cause::RealTypes,
    )?;
    assert_not_declared(&rt, b"type T is limited private;", 11, Cause::PrivateTypes)?;
    assert_not_declared(
        &rt,
        b"type T is array (1 .. 2, 1 .. 2) of INTEGER;",
        24,
        Cause::SeveralDimensions,
    )?;
    assert_not_declared(
        &rt,
        b"type T is array (INTEGER range <>) of INTEGER;",
        18,
        Cause::UnconstrainedArrays,
    )?;
    Ok(())
}

/// Declarations that lie outside of the subset.
#[test]
fn refuses_declarations_by_name(rt: HostRuntime) -> Result<(), Fail> {
    assert_not_declared(&rt, b"S : STRING (1 .. 3);", 12, Cause::UnconstrainedArrays)?;
    assert_not_declared(&rt, b"package Q is end Q;", 1, Cause::Packages)?;
    assert_not_declared(&rt, b"generic procedure Q;", 1, Cause::Generics)?;
    assert_not_declared(&rt, b"procedure Q is new R;", 16, Cause::Generics)?;
    assert_not_declared(&rt, b"procedure Q is separate;", 16, Cause::Separate)?;
    assert_not_declared(&rt, b"task body T is separate;", 16, Cause::Separate)?;
    assert_not_declared(&rt, b"procedure Q renames R;", 13, Cause::Renaming)?;
    assert_not_declared(&rt, b"A : INTEGER renames B;", 13, Cause::Renaming)?;
    Ok(())
}

/// Declarations that lie outside of the subset.
#[test]
fn refuses_more_declarations_by_name(rt: HostRuntime) -> Result<(), Fail> {
    assert_not_declared(&rt, b"use CALENDAR;", 1, Cause::UseClauses)?;
    assert_not_declared(&rt, b"for T use 8;", 1, Cause::RepresentationClauses)?;
    assert_not_declared(
        &rt,
        b"task T is entry E; for E use at 8; end T;",
        20,
        Cause::RepresentationClauses,
    )?;
    assert_not_declared(
        &rt,
        b"procedure Q (A : INTEGER := 1);",
        26,
        Cause::DefaultValues,
    )?;
    assert_not_declared(
        &rt,
        b"function \"+\" (A, B : INTEGER) return INTEGER;",
        10,
        Cause::OperatorFunctions,
    )?;
    assert_not_declared(&rt, b"A : constant := 5;", 14, Cause::NumberDeclarations)?;
    assert_not_declared(&rt, b"task T is end U;", 15, Cause::OtherName)?;
    Ok(())
}

/// Objects and types stand before all bodies (3.9).
#[test]
fn refuses_late_declarations(rt: HostRuntime) -> Result<(), Fail> {
    assert_not_declared(
        &rt,
        b"procedure Q is begin null; end; A : INTEGER;",
        33,
        Cause::LateDeclaration,
    )?;
    assert_not_declared(
        &rt,
        b"task T; task body T is begin null; end; type U is (V);",
        41,
        Cause::LateDeclaration,
    )?;
    assert_not_declared(
        &rt,
        b"procedure Q is begin null; end; subtype S is T;",
        33,
        Cause::LateDeclaration,
    )?;
    assert_declares(
        &rt,
        b"procedure Q is A : T; begin null; end; task T; pragma P; procedure R;
          procedure R is begin null; end;",
    )?;
    Ok(())
}

/// What is no range (3.5, 3.6.1).
#[test]
fn refuses_what_is_no_range(rt: HostRuntime) -> Result<(), Fail> {
    assert_not_declared(&rt, b"type T is range 5;", 17, Cause::NoRange)?;
    assert_not_declared(&rt, b"subtype S is T range U;", 22, Cause::NoRange)?;
    assert_not_declared(
        &rt,
        b"type T is array (3) of U;",
        18,
        Cause::NoDiscreteRange,
    )?;
    assert_not_declared(
        &rt,
        b"task T is entry E (3); end T;",
        20,
        Cause::NoDiscreteRange,
    )?;
    assert_declares(
        &rt,
        b"subtype S is T range U'RANGE; task W is entry E (S); entry F (U'RANGE); end W;",
    )?;
    Ok(())
}

/// Errors of the grammar.
#[test]
fn says_what_could_stand_in_declarations(rt: HostRuntime) -> Result<(), Fail> {
    assert_not_declared(&rt, b"A INTEGER;", 3, wanted(Kind::Colon, Kind::Identifier))?;
    assert_not_declared(&rt, b"type T := 1;", 8, wanted(Kind::Is, Kind::Assignment))?;
    assert_not_declared(
        &rt,
        b"type T is 5;",
        11,
        unexpected(Wanted::TypeDefinition, Kind::Integer),
    )?;
    assert_not_declared(
        &rt,
        b"null;",
        1,
        unexpected(Wanted::Declaration, Kind::Null),
    )?;
    assert_not_declared(
        &rt,
        b"\ttask TASK;",
        7,
        wanted(Kind::Identifier, Kind::Task),
    )?;
    Ok(())
}
