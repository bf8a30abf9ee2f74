//! What the rules of types refuse in statements, calls and aggregates, each with its place: mostly the beginning of the
//! third line.

use crate::mistyped::{assert_misdeclared, assert_misstated};
use crate::types::assert_mistyped;
use ada_text::Cause;
use std::test::Fail;

/// Assignments (5.2), conditions (5.3) and delays (9.6).
#[test]
fn refuses_assignments_and_conditions(rt: HostRuntime) -> Result<(), Fail> {
    assert_misstated(
        &rt,
        &[
            (
                b"declare A : constant INTEGER := 1; begin\nA := 2; end;",
                Cause::NoVariable,
            ),
            (
                b"for I in 1 .. 2 loop\nI := 2; end loop;",
                Cause::NoVariable,
            ),
            (
                b"declare type C is (RED); begin\nRED := RED; end;",
                Cause::NoVariable,
            ),
            (b"\nINTEGER := 2;", Cause::NoVariable),
            (
                b"declare A : INTEGER; begin A :=\nTRUE; end;",
                Cause::WrongType,
            ),
            (
                b"declare A : constant array (1 .. 2) of INTEGER := (1, 2); begin A\n(1) := 2; \
                  end;",
                Cause::NoVariable,
            ),
            (
                b"declare A : array (1 .. 2) of INTEGER; B : array (1 .. 2) of INTEGER; begin A \
                  :=\nB; end;",
                Cause::WrongType,
            ),
            (b"if\n1 then null; end if;", Cause::NoCondition),
            (
                b"if TRUE then null; elsif\n'A' then null; end if;",
                Cause::NoCondition,
            ),
            (b"while\n1 loop null; end loop;", Cause::NoCondition),
            (b"loop exit when\n1; end loop;", Cause::NoCondition),
            (b"delay\n1;", Cause::WrongType),
            (
                b"declare A : INTEGER := 1; begin delay A\n* 2; end;",
                Cause::WrongType,
            ),
        ],
    )?;
    assert_misdeclared(
        &rt,
        &[
            (
                b"procedure Q (A : INTEGER) is begin\nA := 1; end;",
                Cause::NoVariable,
            ),
            (
                b"procedure Q (A : out INTEGER; B : in out INTEGER) is begin B :=\nA; end;",
                Cause::OutParameterRead,
            ),
            (
                b"type T is array (0 .. 1) of BOOLEAN; procedure Q (A : out T; B : out BOOLEAN) \
                  is begin B := A\n(1); end;",
                Cause::OutParameterRead,
            ),
            (
                b"task T is entry E (A : INTEGER); end T; task body T is begin accept E (A : \
                  INTEGER) do\nA := 1; end E;
                  end T;",
                Cause::NoVariable,
            ),
            (
                b"task T is entry E; end T; task body T is begin select when\n1 => accept E; or \
                  terminate; end select;
                  end T;",
                Cause::NoCondition,
            ),
        ],
    )
}

/// Case statements (5.4).
#[test]
fn refuses_cases(rt: HostRuntime) -> Result<(), Fail> {
    assert_misstated(
        &rt,
        &[
            (
                b"declare A : INTEGER := 1; begin\ncase A is when 1 => null; end case; end;",
                Cause::ChoiceMissing,
            ),
            (
                b"declare A : INTEGER range 1 .. 3 := 1; begin\ncase A is when 1 | 3 => null; end \
                  case; end;",
                Cause::ChoiceMissing,
            ),
            (
                b"declare A : BOOLEAN := TRUE; begin case A is when TRUE => null; when\nTRUE => \
                  null; end case; end;",
                Cause::ChoiceTwice,
            ),
            (
                b"declare A : INTEGER := 1; begin case A is when 1 .. 5 => null; when\n5 => null;
                  when others => null; end case; end;",
                Cause::ChoiceTwice,
            ),
            (
                b"declare A : INTEGER := 1; begin case A is when 5 => null; when\n1 .. 9 => null;
                  when others => null; end case; end;",
                Cause::ChoiceTwice,
            ),
            (
                b"declare A : INTEGER range 1 .. 3 := 1; begin case A is when 1 .. 3 => null; \
                  when\n4 => null; end case;
                  end;",
                Cause::ChoiceOutside,
            ),
            (
                b"declare A : INTEGER range 1 .. 3 := 1; begin case A is when\nINTEGER => null; \
                  end case; end;",
                Cause::ChoiceOutside,
            ),
            (
                b"declare A : BOOLEAN := TRUE; begin case A is when\nothers => null; when TRUE => \
                  null; end case; end;",
                Cause::OthersNotAlone,
            ),
            (
                b"declare A : BOOLEAN := TRUE; begin case A is when TRUE |\nothers => null; end \
                  case; end;",
                Cause::OthersNotAlone,
            ),
            (
                b"declare A : BOOLEAN := TRUE; begin case A is when\n1 => null; end case; end;",
                Cause::WrongType,
            ),
            (
                b"case\n0.5 is when others => null; end case;",
                Cause::NotDiscrete,
            ),
            (
                b"declare type C is (RED, GREEN, BLUE); A : C := RED; begin\ncase A is when RED \
                  .. GREEN => null; end case;
                  end;",
                Cause::ChoiceMissing,
            ),
        ],
    )
}

/// Aggregates (4.3).
#[test]
fn refuses_aggregates(rt: HostRuntime) -> Result<(), Fail> {
    assert_misdeclared(
        &rt,
        &[
            (
                b"A : array (1 .. 3) of INTEGER :=\n(1, 2);",
                Cause::ComponentCount,
            ),
            (
                b"A : array (1 .. 3) of INTEGER :=\n(1, 2, 3, 4);",
                Cause::ComponentCount,
            ),
            (
                b"A : array (1 .. 3) of INTEGER :=\n(1 => 1, 2 => 2);",
                Cause::ChoiceMissing,
            ),
            (
                b"A : array (1 .. 3) of INTEGER := (1 .. 2 => 1,\n2 .. 3 => 2);",
                Cause::ChoiceTwice,
            ),
            (
                b"A : array (1 .. 3) of INTEGER := (1 .. 3 => 1,\n4 => 2);",
                Cause::ChoiceOutside,
            ),
            (
                b"A : array (1 .. 3) of INTEGER :=\n(1, 2, 3 => 3);",
                Cause::MixedAggregate,
            ),
            (
                b"A : array (1 .. 3) of INTEGER := (1 => 1,\n2, 3);",
                Cause::PositionAfterName,
            ),
            (
                b"A : array (1 .. 3) of INTEGER :=\n(1 => 1, others => 2);",
                Cause::OthersBesideChoices,
            ),
            (
                b"A : array (1 .. 3) of INTEGER :=\n(1, 2, 3, 4, others => 2);",
                Cause::ComponentCount,
            ),
            (
                b"A : array (1 .. 3) of INTEGER := (1 |\nothers => 2);",
                Cause::OthersNotAlone,
            ),
            (
                b"A : array (1 .. 3) of INTEGER := (\nothers => 1, 2 => 2);",
                Cause::OthersNotAlone,
            ),
            (
                b"A : array (BOOLEAN) of INTEGER := (FALSE => 1,\n1 => 2);",
                Cause::WrongType,
            ),
            (
                b"A : array (1 .. 3) of INTEGER; B : BOOLEAN := A =\n(others => 2);",
                Cause::OthersAsOperand,
            ),
        ],
    )
}

/// Arguments of calls (6.4.1).
#[test]
fn refuses_arguments(rt: HostRuntime) -> Result<(), Fail> {
    const Q: &[u8] = b"procedure Q (A : INTEGER; B : out INTEGER) is begin B := A; end Q;";
    let calls: [(&[u8], u32, Cause); 12] = [
        (b"Q;", 1, Cause::ArgumentCount),
        (b"Q (1);", 3, Cause::ArgumentCount),
        (b"Q (1, X, 2);", 3, Cause::ArgumentCount),
        (b"Q (1, 2);", 7, Cause::NoVariable),
        (b"Q (1, Y);", 7, Cause::WrongType),
        (b"Q (TRUE, X);", 4, Cause::WrongType),
        (b"Q (A => 1, X);", 12, Cause::PositionAfterName),
        (b"Q (1, C => X);", 7, Cause::NoSuchParameter),
        (b"Q (1, A => 2);", 12, Cause::ArgumentTwice),
        (b"Q (1, A | B => X);", 7, Cause::NoSuchParameter),
        (b"X := Q (1, X);", 8, Cause::NoValue),
        (b"Q (F, F);", 7, Cause::NoVariable),
    ];
    for (call, column, cause) in calls {
        let mut text = b"procedure P is X : INTEGER := 1; Y : BOOLEAN := TRUE;\n".to_vec(
            rt.alloc(),
        )?;
        text.extend_from_slice(Q)?;
        text.extend_from_slice(b"function F return INTEGER is begin return 1; end F; begin\n")?;
        text.extend_from_slice(call)?;
        text.extend_from_slice(b" end P;")?;
        assert_mistyped(&rt, &text, 3, column, cause);
    }
    Ok(())
}

/// Statements that call nothing, and calls of TEXT_IO (14.3).
#[test]
fn refuses_calls(rt: HostRuntime) -> Result<(), Fail> {
    assert_misdeclared(
        &rt,
        &[
            (
                b"function F return INTEGER is begin return 1; end F; procedure Q is begin\nF; \
                  end Q;",
                Cause::NoProcedure,
            ),
            (
                b"procedure Q is A : INTEGER; begin\nA; end Q;",
                Cause::NoProcedure,
            ),
            (b"procedure Q is begin\nP; end Q;", Cause::Recursion),
        ],
    )?;
    let calls: [(&[u8], Cause); 8] = [
        (b"PUT\n(1);", Cause::WrongType),
        (b"PUT\n(TRUE);", Cause::WrongType),
        (b"PUT_LINE\n('A');", Cause::WrongType),
        (b"PUT_LINE\n(\"A\", \"B\");", Cause::ArgumentCount),
        (b"PUT\n;", Cause::ArgumentCount),
        (b"NEW_LINE (\n\"A\");", Cause::WrongType),
        (b"PUT (\nITEM => \"A\");", Cause::NoSuchParameter),
        (b"PUT (INTEGER'IMAGE (1) &\n2);", Cause::NoOperator),
    ];
    for (call, cause) in calls {
        let mut text = b"with TEXT_IO; use TEXT_IO; procedure P is begin\n".to_vec(rt.alloc())?;
        text.extend_from_slice(call)?;
        text.extend_from_slice(b" end P;")?;
        assert_eq!(&rt;
            crate::types::types(rt.alloc(), &text)
                .err()
                .map(|fault| fault.cause),
            Some(cause)
        );
    }
    Ok(())
}

/// Calls of entries (9.5), select (9.7) and abort statements (9.10).
#[test]
fn refuses_calls_of_entries(rt: HostRuntime) -> Result<(), Fail> {
    const TASKS: &[u8] = b"task T is entry E; entry F (1 .. 3); entry G (A : INTEGER);
        entry H (BOOLEAN) (A : out INTEGER); end T; task body T is begin null; end T; procedure Q \
        is begin null; end Q;";
    let calls: [(&[u8], u32, Cause); 15] = [
        (b"T.E (1);", 5, Cause::FamilyIndexOfCall),
        (b"T.F;", 3, Cause::FamilyIndexOfCall),
        (b"T.F (TRUE);", 6, Cause::WrongType),
        (b"T.F (1, 2);", 5, Cause::FamilyIndexOfCall),
        (b"T.F (1) (2);", 9, Cause::FamilyIndexOfCall),
        (b"T.G;", 3, Cause::ArgumentCount),
        (b"T.G (TRUE);", 6, Cause::WrongType),
        (b"T.G (B => 1);", 6, Cause::NoSuchParameter),
        (b"T.H (TRUE);", 5, Cause::ArgumentCount),
        (b"T.H (TRUE) (1);", 13, Cause::NoVariable),
        (b"T.H (1) (X);", 6, Cause::WrongType),
        (b"select Q; else null; end select;", 8, Cause::NoEntryCall),
        (
            b"select Q; or delay 1.0; end select;",
            8,
            Cause::NoEntryCall,
        ),
        (b"abort X;", 7, Cause::NoTask),
        (b"select T.E; or delay 1; end select;", 22, Cause::WrongType),
    ];
    for (call, column, cause) in calls {
        let mut text = b"procedure P is X : INTEGER := 1;".to_vec(rt.alloc())?;
        text.extend_from_slice(TASKS)?;
        text.extend_from_slice(b" begin\n")?;
        text.extend_from_slice(call)?;
        text.extend_from_slice(b" end P;")?;
        assert_mistyped(&rt, &text, 3, column, cause);
    }
    Ok(())
}

/// Entries of objects and components, which types alone find (4.1.3).
#[test]
fn refuses_entries_of_objects(rt: HostRuntime) -> Result<(), Fail> {
    const TASKS: &[u8] =
        b"task type T is entry E; end T; A : T; B : array (1 .. 2) of T; C : INTEGER := 1;
        task body T is begin null; end T;";
    let calls: [(&[u8], u32, Cause); 5] = [
        (b"A.F;", 3, Cause::NoSuchEntry),
        (b"B (1).F;", 7, Cause::NoSuchEntry),
        (b"B.E;", 3, Cause::NoSuchSelector),
        (b"C.E;", 3, Cause::NoSuchSelector),
        (b"B (TRUE).E;", 4, Cause::WrongType),
    ];
    for (call, column, cause) in calls {
        let mut text = b"procedure P is ".to_vec(rt.alloc())?;
        text.extend_from_slice(TASKS)?;
        text.extend_from_slice(b" begin\n")?;
        text.extend_from_slice(call)?;
        text.extend_from_slice(b" end P;")?;
        assert_mistyped(&rt, &text, 3, column, cause);
    }
    Ok(())
}

/// Return statements (5.8), requests in functions, and subprograms that call themselves.
#[test]
fn refuses_returns_and_recursion(rt: HostRuntime) -> Result<(), Fail> {
    assert_misstated(&rt, &[(b"return\n1;", Cause::ReturnWithValue)])?;
    assert_misdeclared(
        &rt,
        &[
            (
                b"function F return INTEGER is begin\nreturn; end F;",
                Cause::ReturnWithoutValue,
            ),
            (
                b"procedure Q is begin return\n1; end Q;",
                Cause::ReturnWithValue,
            ),
            (
                b"function F return INTEGER is begin return\nTRUE; end F;",
                Cause::WrongType,
            ),
            (b"procedure Q is begin\nQ; end Q;", Cause::Recursion),
            (
                b"function F return INTEGER is begin return\nF; end F;",
                Cause::Recursion,
            ),
            (
                b"function F (A : INTEGER) return INTEGER is begin return F\n(A - 1); end F;",
                Cause::Recursion,
            ),
            (
                b"procedure Q (A : INTEGER) is begin Q\n(A - 1); end Q;",
                Cause::Recursion,
            ),
            (
                b"procedure Q is procedure R is begin Q; end R; begin\nR; end Q;",
                Cause::Recursion,
            ),
            (
                b"procedure R; procedure Q is begin\nR; end Q; procedure R is begin Q; end R;",
                Cause::Recursion,
            ),
            (
                b"procedure R; procedure A is begin R; end A; procedure R is begin null;\nR; end \
                  R;",
                Cause::Recursion,
            ),
            (
                b"function F return INTEGER is begin\ndelay 1.0; return 1; end F;",
                Cause::RequestInFunction,
            ),
            (
                b"task T; task body T is begin null; end T; function F return INTEGER is \
                  begin\nabort T; return 1; end F;",
                Cause::RequestInFunction,
            ),
            (
                b"task T is entry E; end T; task body T is begin null; end T; function F return \
                  INTEGER is begin T.\nE;
                  return 1; end F;",
                Cause::RequestInFunction,
            ),
            (
                b"procedure Q is begin delay 1.0; end Q; procedure R is begin Q; end R; function \
                  F return INTEGER is begin\nR;
                  return 1; end F;",
                Cause::RequestInFunction,
            ),
        ],
    )
}
