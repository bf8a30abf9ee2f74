//! What the rules of types refuse in declarations and expressions, each with its place: mostly the beginning of the
//! third line.

use crate::common::{with_declarations, with_statements};
use crate::types::assert_mistyped;
use ada_text::Cause;
use std::process::Abort;
use std::test::Fail;

/// Declarations or statements of which the third line of the text begins with what is refused, and why.
pub type Refused = (&'static [u8], Cause);

/// Each of these declarations is refused.
pub fn assert_misdeclared<R: Abort + AllocGlobal>(rt: &R, refused: &[Refused]) -> Result<(), Fail> {
    for (declarations, cause) in refused {
        let text = with_declarations(rt, declarations)?;
        assert_mistyped(rt, &text, 3, 1, *cause);
    }
    Ok(())
}

/// Each of these statements is refused.
pub fn assert_misstated<R: Abort + AllocGlobal>(rt: &R, refused: &[Refused]) -> Result<(), Fail> {
    for (statements, cause) in refused {
        let text = with_statements(rt, statements)?;
        assert_mistyped(rt, &text, 3, 1, *cause);
    }
    Ok(())
}

/// Values of other types (3.2.1, 4.4).
#[test]
fn refuses_wrong_types(rt: HostRuntime) -> Result<(), Fail> {
    let cause = Cause::WrongType;
    assert_misdeclared(
        &rt,
        &[
            (b"A : INTEGER :=\nTRUE;", cause),
            (b"A : BOOLEAN :=\n1;", cause),
            (b"A : CHARACTER :=\n1;", cause),
            (b"A : DURATION :=\n1;", cause),
            (b"A : INTEGER :=\n1.5;", cause),
            (b"A : INTEGER :=\n'1';", cause),
            (b"A : INTEGER :=\n\"1\";", cause),
            (
                b"type T is range 1 .. 9; A : T := 1; B : INTEGER :=\nA;",
                cause,
            ),
            (b"type C is (RED); A : INTEGER :=\nRED;", cause),
            (b"type C is (RED); type D is (BLUE); A : D :=\nRED;", cause),
            (b"A : INTEGER :=\n(1, 2);", cause),
            (b"A : array (1 .. 2) of BOOLEAN := (TRUE,\n1);", cause),
            (
                b"A : array (1 .. 2) of INTEGER; B : INTEGER := A (\nTRUE);",
                cause,
            ),
            (
                b"A : array (BOOLEAN) of INTEGER; B : INTEGER := A (\n1);",
                cause,
            ),
            (b"A : BOOLEAN := 1 =\nTRUE;", cause),
            (
                b"A : INTEGER := 1; B : BOOLEAN :=\nA in TRUE .. TRUE;",
                cause,
            ),
            (
                b"type T is range 1 .. 9; A : T := 1; B : INTEGER := 1 + INTEGER'(2) +\nA;",
                cause,
            ),
            (b"A : INTEGER := BOOLEAN'POS (\n1);", cause),
            (b"A : BOOLEAN := BOOLEAN'VAL (\nTRUE);", cause),
            (b"A : INTEGER := 2 **\nTRUE;", cause),
            (b"A : BOOLEAN := BOOLEAN'(\n1);", cause),
            (b"type T is range\nFALSE .. TRUE;", Cause::WrongType),
            (
                b"subtype S is INTEGER range\nFALSE .. TRUE;",
                Cause::WrongType,
            ),
        ],
    )
}

/// What isn't a value (4.4), and what isn't a type (3.3.2).
#[test]
fn refuses_what_is_no_value(rt: HostRuntime) -> Result<(), Fail> {
    assert_misdeclared(
        &rt,
        &[
            (b"A : INTEGER :=\nINTEGER;", Cause::NoValue),
            (b"E : exception; A : INTEGER :=\nE;", Cause::NoValue),
            (
                b"procedure Q; A : INTEGER :=\nQ; procedure Q is begin null; end;",
                Cause::NoValue,
            ),
            (
                b"function F (X : INTEGER) return INTEGER; A : INTEGER :=\nF;
                  function F (X : INTEGER) return INTEGER is begin return X; end;",
                Cause::NoValue,
            ),
            (
                b"task T is entry E; end T; A : INTEGER := T.\nE; task body T is begin null; end \
                  T;",
                Cause::NoValue,
            ),
            (b"A : INTEGER; B :\nA;", Cause::NoSubtype),
            (
                b"E : exception; A : array (1 .. 2) of\nE;",
                Cause::NoSubtype,
            ),
            (
                b"task T; A :\nT; task body T is begin null; end T;",
                Cause::NoSubtype,
            ),
            (b"A :\nSTRING;", Cause::Strings),
            (
                b"procedure Q (A :\nSTRING) is begin null; end;",
                Cause::Strings,
            ),
        ],
    )
}

/// Enumeration literals and aggregates of which nothing says the type (8.7).
#[test]
fn refuses_unknown_types(rt: HostRuntime) -> Result<(), Fail> {
    let cause = Cause::UnknownType;
    assert_misdeclared(
        &rt,
        &[
            (
                b"type C is (A, B); type D is (A, B); X : BOOLEAN :=\nA = B;",
                cause,
            ),
            (
                b"type C is (A, B); type D is (A, B); X : array (\nA .. B) of INTEGER;",
                cause,
            ),
            (b"type C is ('A', B); X : BOOLEAN :=\n'A' < 'A';", cause),
            (b"X : BOOLEAN :=\n(1, 2) = (1, 2);", cause),
            (
                b"type C is (A, B); type D is (A, B); X : INTEGER := INTEGER (\nA);",
                cause,
            ),
            (
                b"type C is (A, B); type D is (A, B); X : BOOLEAN :=\nA in A .. B;",
                cause,
            ),
        ],
    )?;
    assert_misstated(
        &rt,
        &[(
            b"declare type C is (A, B); type D is (A, B); begin case\nA is when A => null; end \
              case; end;",
            cause,
        )],
    )
}

/// Bounds and choices that have to be static (4.9).
#[test]
fn refuses_what_is_not_static(rt: HostRuntime) -> Result<(), Fail> {
    let cause = Cause::NotStatic;
    assert_misdeclared(
        &rt,
        &[
            (
                b"N : INTEGER := 3; subtype S is\nINTEGER range 1 .. N;",
                cause,
            ),
            (b"N : INTEGER := 3; A : array (\n1 .. N) of INTEGER;", cause),
            (b"N : INTEGER := 3; type T is range\n1 .. N;", cause),
            (b"N : INTEGER := 3; B :\nINTEGER range 1 .. N;", cause),
            (
                b"N : INTEGER := 3; C : constant INTEGER := N; A : array (\n1 .. C) of INTEGER;",
                cause,
            ),
            (
                b"N : constant POSITIVE := 3; A : array (\n1 .. INTEGER (N)) of INTEGER;",
                cause,
            ),
            (
                b"N : INTEGER := 3; task T is entry E (\n1 .. N); end T; task body T is begin \
                  null; end T;",
                cause,
            ),
            (
                b"N : INTEGER := 3; A : array (1 .. 3) of INTEGER :=\n(N => 1, others => 0);",
                Cause::OthersBesideChoices,
            ),
        ],
    )?;
    assert_misstated(
        &rt,
        &[
            (
                b"declare N : INTEGER := 1; begin case N is when\nN => null; when others => null; \
                  end case; end;",
                cause,
            ),
            (
                b"declare N : INTEGER := 1; begin case N is when\n1 .. N => null; when others => \
                  null; end case; end;",
                cause,
            ),
            (
                b"declare N : INTEGER := 1; A : array (1 .. 2) of INTEGER; begin A := (\nN => 1, \
                  2 => 2); end;",
                cause,
            ),
        ],
    )
}

/// Static values beyond their type, and zero divisors (4.10).
#[test]
fn refuses_values_outside(rt: HostRuntime) -> Result<(), Fail> {
    let cause = Cause::ValueOutside;
    assert_misdeclared(
        &rt,
        &[
            (b"A : INTEGER :=\n2_147_483_648;", cause),
            (b"A : INTEGER := INTEGER'LAST\n+ 1;", cause),
            (b"A : INTEGER := INTEGER'FIRST\n- 1;", cause),
            (b"A : INTEGER :=\n- INTEGER'FIRST;", cause),
            (b"A : INTEGER :=\nabs INTEGER'FIRST;", cause),
            (b"A : INTEGER := 2\n** 31;", cause),
            (b"A : INTEGER := 2\n** (-1);", cause),
            (b"A : INTEGER := 9_223_372_036_854_775_807\n+ 1;", cause),
            (b"A : BOOLEAN := BOOLEAN'SUCC\n(TRUE);", cause),
            (b"A : BOOLEAN := BOOLEAN'PRED\n(FALSE);", cause),
            (b"A : BOOLEAN := BOOLEAN'VAL\n(2);", cause),
            (b"A : CHARACTER := CHARACTER'VAL\n(128);", cause),
            (b"A : DURATION :=\n86_400.001;", cause),
            (b"A : INTEGER := 1\n/ 0;", Cause::DivisionByZero),
            (b"A : INTEGER := 1\nmod 0;", Cause::DivisionByZero),
            (b"A : INTEGER := 1\nrem 0;", Cause::DivisionByZero),
            (
                b"Z : constant INTEGER := 0; A : INTEGER := 7; B : INTEGER := A\n/ Z;",
                Cause::DivisionByZero,
            ),
        ],
    )
}

/// Ranges of no type, or beyond it (3.3.2, 3.5.4, 3.6.1), and what has no range.
#[test]
fn refuses_ranges(rt: HostRuntime) -> Result<(), Fail> {
    assert_misdeclared(
        &rt,
        &[
            (b"A : array (\n-1 .. 1) of INTEGER;", Cause::UniversalRange),
            (
                b"A : array (\n1 .. 2 + 1) of INTEGER;",
                Cause::UniversalRange,
            ),
            (b"subtype S is POSITIVE range\n0 .. 9;", Cause::RangeOutside),
            (
                b"type T is range 1 .. 9; subtype S is T range\n1 .. 10;",
                Cause::RangeOutside,
            ),
            (b"type T is range\n1 .. 2_147_483_648;", Cause::RangeOutside),
            (
                b"A : array (POSITIVE range\n0 .. 9) of INTEGER;",
                Cause::RangeOutside,
            ),
            (b"A : array (\nPOSITIVE) of INTEGER;", Cause::ArrayTooLong),
            (
                b"A : array (\n0 .. 65_536) of INTEGER;",
                Cause::ArrayTooLong,
            ),
            (
                b"type T is array (1 .. 2) of INTEGER; A : array (1 .. 2) of\nT;",
                Cause::ArraysOfArrays,
            ),
            (
                b"task T is entry E (\nPOSITIVE); end T; task body T is begin null; end T;",
                Cause::FamilyTooLong,
            ),
            (b"A : array (\nDURATION) of INTEGER;", Cause::NotDiscrete),
            (
                b"type T is array (1 .. 2) of INTEGER; A : array (\nT) of INTEGER;",
                Cause::NotDiscrete,
            ),
            (
                b"type T is array (1 .. 2) of INTEGER; A :\nT range 1 .. 2;",
                Cause::NotDiscrete,
            ),
            (
                b"A : INTEGER; B : array (\nA) of INTEGER;",
                Cause::NotDiscrete,
            ),
            (b"A : array (\n0.5 .. 1.5) of INTEGER;", Cause::NotDiscrete),
        ],
    )?;
    assert_misstated(
        &rt,
        &[
            (
                b"for I in\n-1 .. 1 loop null; end loop;",
                Cause::UniversalRange,
            ),
            (
                b"for I in\n1 .. 1 + 1 loop null; end loop;",
                Cause::UniversalRange,
            ),
            (
                b"for I in 1 ..\nTRUE loop null; end loop;",
                Cause::WrongType,
            ),
            (
                b"for I in\nDURATION loop null; end loop;",
                Cause::NotDiscrete,
            ),
        ],
    )
}

/// Operators that operands don't have (4.5), and conversions that aren't there (4.6).
#[test]
fn refuses_operators(rt: HostRuntime) -> Result<(), Fail> {
    assert_misdeclared(
        &rt,
        &[
            (b"A : BOOLEAN := TRUE\n+ TRUE;", Cause::NoOperator),
            (b"A : BOOLEAN := 1\nand 2;", Cause::NoOperator),
            (b"A : BOOLEAN :=\nnot 1;", Cause::NoOperator),
            (b"A : INTEGER :=\n- TRUE;", Cause::NoOperator),
            (b"A : DURATION := 0.5\n* 0.5;", Cause::NoOperator),
            (b"A : DURATION := 0.5\nmod 0.5;", Cause::NoOperator),
            (b"A : DURATION := 0.5\n** 2;", Cause::NoOperator),
            (
                b"A : INTEGER := 1; B : INTEGER := A\n& A;",
                Cause::NoOperator,
            ),
            (
                b"type T is array (1 .. 2) of BOOLEAN; A, B : T; C : BOOLEAN := A\n< B;",
                Cause::ArrayOperators,
            ),
            (
                b"type T is array (1 .. 2) of BOOLEAN; A, B : T; C : T := A\nand B;",
                Cause::ArrayOperators,
            ),
            (b"A : BOOLEAN := \"A\"\n= \"B\";", Cause::Strings),
            (b"A : BOOLEAN := \"A\"\n< \"B\";", Cause::Strings),
            (b"A : INTEGER := INTEGER\n(TRUE);", Cause::NoConversion),
            (b"A : BOOLEAN := BOOLEAN\n(1);", Cause::NoConversion),
            (b"A : INTEGER := INTEGER\n(0.5);", Cause::NoConversion),
            (b"A : INTEGER := INTEGER\n(1, 2);", Cause::NoConversion),
            (b"A : INTEGER; B : INTEGER := A\n(1);", Cause::NotCallable),
            (
                b"A : array (1 .. 2) of INTEGER; B : INTEGER := A\n(1, 2);",
                Cause::WrongIndex,
            ),
            (
                b"A : array (1 .. 2) of INTEGER; B : INTEGER := A\n(I => 2);",
                Cause::WrongIndex,
            ),
        ],
    )
}

/// Attributes that don't fit their prefix (4.1.4).
#[test]
fn refuses_attributes(rt: HostRuntime) -> Result<(), Fail> {
    let cause = Cause::WrongPrefix;
    assert_misdeclared(
        &rt,
        &[
            (b"A : INTEGER; B : INTEGER := A'\nFIRST;", cause),
            (b"A : INTEGER := INTEGER'\nLENGTH;", cause),
            (b"A : BOOLEAN := 1 in INTEGER'\nRANGE;", cause),
            (
                b"A : array (1 .. 2) of INTEGER; B : INTEGER := A'\nPOS (1);",
                cause,
            ),
            (
                b"type T is array (1 .. 2) of INTEGER; B : INTEGER := T'\nSUCC (1);",
                cause,
            ),
            (b"A : INTEGER := INTEGER'\nCOUNT;", cause),
            (b"A : BOOLEAN :=\nINTEGER'CALLABLE;", Cause::NoTask),
            (b"A : INTEGER; B : BOOLEAN :=\nA'TERMINATED;", Cause::NoTask),
            (
                b"A : INTEGER := INTEGER'SUCC\n(1, 2);",
                Cause::ArgumentCount,
            ),
            (
                b"task T is entry E; end T; A : INTEGER := T.E'\nCOUNT; task body T is begin \
                  null; end T;",
                Cause::CountElsewhere,
            ),
            (
                b"task type T is entry E; end T; A : T; task body T is X : INTEGER := \
                  A.E'\nCOUNT; begin null; end T;",
                Cause::CountElsewhere,
            ),
            (
                b"task T is entry E; end T; task body T is function F return INTEGER is begin \
                  return E'\nCOUNT; end F;
                  begin null; end T;",
                Cause::CountElsewhere,
            ),
            (
                b"task T is entry E (1 .. 2); end T; task body T is X : INTEGER :=\nE'COUNT; \
                  begin null; end T;",
                Cause::FamilyIndexOfCall,
            ),
        ],
    )
}

/// Constants without a value (3.2.1), and tasks where they have no place (9.2).
#[test]
fn refuses_objects(rt: HostRuntime) -> Result<(), Fail> {
    assert_misdeclared(
        &rt,
        &[
            (b"\nA : constant INTEGER;", Cause::ConstantWithoutValue),
            (
                b"task type T;\nA : constant T; task body T is begin null; end T;",
                Cause::TaskValues,
            ),
            (
                b"task type T; B : T;\nA : T := B; task body T is begin null; end T;",
                Cause::TaskValues,
            ),
            (
                b"task type T; A, B : T; C : BOOLEAN := A\n= B; task body T is begin null; end T;",
                Cause::TaskValues,
            ),
            (
                b"task type T; procedure Q (A :\nT); task body T is begin null; end T;
                  procedure Q (A : T) is begin null; end Q;",
                Cause::TaskParameters,
            ),
            (
                b"task type T; type TS is array (1 .. 2) of T; task U is entry E (A :\nTS); end U;
                  task body T is begin null; end T; task body U is begin null; end U;",
                Cause::TaskParameters,
            ),
            (
                b"task type T; A : T; function F return\nT; task body T is begin null; end T;
                  function F return T is begin return A; end F;",
                Cause::TaskParameters,
            ),
            (
                b"procedure Q is task\nT; task body T is begin null; end T; begin null; end Q;",
                Cause::TasksInSubprogram,
            ),
            (
                b"task type T; task body T is begin null; end T; procedure Q is begin declare\nA \
                  : T; begin null; end;
                  end Q;",
                Cause::TasksInSubprogram,
            ),
            (
                b"function F (\nA : out INTEGER) return INTEGER is begin return 1; end F;",
                Cause::FunctionMode,
            ),
            (
                b"function\nF return INTEGER is begin null; end F;",
                Cause::NoReturn,
            ),
        ],
    )
}
