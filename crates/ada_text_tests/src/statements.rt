//! Statements (chapter 5), of tasks (9) and exceptions (11) too.

use crate::common::{assert_does, assert_not_done, unexpected, wanted};
use ada_text::{Cause, Kind, Wanted};
use std::test::Fail;

/// Chapter 5.
#[test]
fn reads_statements(rt: HostRuntime) -> Result<(), Fail> {
    assert_does(
        &rt,
        b"A := 1; A (2) := B'LAST; if A then null; elsif B = 1 then C; else D (1, X => 2); end if;",
    )?;
    assert_does(
        &rt,
        b"case A is when 1 | 3 .. 5 => null; when others => raise; end case; return;
          delay 0.5; raise E;",
    )?;
    assert_does(
        &rt,
        b"L : for I in reverse 1 .. 3 loop exit L when I = 2; exit; end loop L;
          while A loop null; end loop;",
    )?;
    assert_does(
        &rt,
        b"for I in COLOUR range RED .. GREEN loop null; end loop; for I in A'RANGE loop null;
          end loop;",
    )?;
    assert_does(
        &rt,
        b"B1 : declare A : INTEGER; begin null; exception when E | F => null;
          when others => null; end B1; begin null; end;",
    )?;
    Ok(())
}

/// Chapter 9.
#[test]
fn reads_statements_of_tasks(rt: HostRuntime) -> Result<(), Fail> {
    assert_does(
        &rt,
        b"T.E; T.G (1); T (2).G (3) (X, Y => Z); abort T, U (1); accept E;
          accept G (I) (X : INTEGER) do A := X; end G;",
    )?;
    assert_does(
        &rt,
        b"select when A => accept E; null; or when B => terminate; end select;
          select accept E; or when B => delay 1.0; A; or delay 2.0; end select;",
    )?;
    assert_does(
        &rt,
        b"select accept E do null; end E; or accept F; else null; end select; select T.E; A;
          else B; end select;",
    )?;
    assert_does(&rt, b"select T.E (1); or delay 2.0; A := 1; end select;")?;
    Ok(())
}

/// Statements that lie outside of the subset.
#[test]
fn refuses_statements_by_name(rt: HostRuntime) -> Result<(), Fail> {
    assert_not_done(&rt, b"goto L;", 1, Cause::Labels)?;
    assert_not_done(&rt, b"<<L>> null;", 1, Cause::Labels)?;
    assert_not_done(
        &rt,
        b"accept E do return; end E;",
        13,
        Cause::ReturnOfAccept,
    )?;
    assert_not_done(
        &rt,
        b"L : if A then null; end if;",
        5,
        wanted(Kind::Loop, Kind::If),
    )?;
    assert_not_done(&rt, b"L : loop null; end loop M;", 25, Cause::OtherName)?;
    assert_not_done(&rt, b"accept E do null; end F;", 23, Cause::OtherName)?;
    Ok(())
}

/// Alternatives that don't stand together (9.7.1 to 9.7.3).
#[test]
fn refuses_alternatives(rt: HostRuntime) -> Result<(), Fail> {
    assert_not_done(
        &rt,
        b"select delay 1.0; or terminate; end select;",
        1,
        Cause::NoAcceptAlternative,
    )?;
    for statements in [
        b"select accept E; or terminate; or delay 1.0; end select;".as_slice(),
        b"select accept E; or terminate; else null; end select;",
        b"select accept E; or delay 1.0; else null; end select;",
        b"select accept E; or terminate; or terminate; end select;",
        b"select accept E; or terminate; null; end select;",
    ] {
        assert_not_done(&rt, statements, 1, Cause::ExclusiveAlternatives)?;
    }
    for statements in [
        b"select T.E; end select;".as_slice(),
        b"select T.E; or T.F; else null; end select;",
        b"select T.E; or accept E; end select;",
        b"select T.E; or delay 1.0; else null; end select;",
        b"select when A => T.E; else null; end select;",
        b"select T.E; or when A => delay 1.0; end select;",
        b"select delay 1.0; or T.E; end select;",
    ] {
        assert_not_done(&rt, statements, 1, Cause::CallAlternatives)?;
    }
    assert_not_done(
        &rt,
        b"select null; or accept E; end select;",
        8,
        unexpected(Wanted::Alternative, Kind::Null),
    )?;
    assert_not_done(
        &rt,
        b"select T.E := 1; or delay 1.0; end select;",
        12,
        wanted(Kind::Semicolon, Kind::Assignment),
    )?;
    assert_not_done(
        &rt,
        b"terminate;",
        1,
        unexpected(Wanted::Statement, Kind::Terminate),
    )?;
    Ok(())
}

/// Errors of the grammar.
#[test]
fn says_what_could_stand_in_statements(rt: HostRuntime) -> Result<(), Fail> {
    assert_not_done(
        &rt,
        b"if A null; end if;",
        6,
        wanted(Kind::Then, Kind::Null),
    )?;
    assert_not_done(
        &rt,
        b"for I in 5 loop null; end loop;",
        10,
        Cause::NoDiscreteRange,
    )?;
    assert_not_done(
        &rt,
        b"for I in others loop null; end loop;",
        10,
        Cause::NoDiscreteRange,
    )?;
    assert_not_done(
        &rt,
        b"for I in T range 5 loop null; end loop;",
        18,
        Cause::NoRange,
    )?;
    assert_not_done(
        &rt,
        b"loop null; end;",
        15,
        wanted(Kind::Loop, Kind::Semicolon),
    )?;
    assert_not_done(
        &rt,
        b"A := ;",
        6,
        unexpected(Wanted::Expression, Kind::Semicolon),
    )?;
    assert_not_done(
        &rt,
        b"A B;",
        3,
        unexpected(Wanted::CallOrAssignment, Kind::Identifier),
    )?;
    assert_not_done(
        &rt,
        b"A'FIRST := 1;",
        3,
        unexpected(Wanted::CallOrAssignment, Kind::Tick),
    )?;
    assert_not_done(
        &rt,
        b"T'(1);",
        3,
        unexpected(Wanted::CallOrAssignment, Kind::Tick),
    )?;
    assert_not_done(
        &rt,
        b"raise 5;",
        7,
        unexpected(Wanted::Expression, Kind::Integer),
    )?;
    assert_not_done(
        &rt,
        b"entry E;",
        1,
        unexpected(Wanted::Statement, Kind::Entry),
    )?;
    assert_not_done(
        &rt,
        b"delay 1.0 null;",
        11,
        wanted(Kind::Semicolon, Kind::Null),
    )?;
    Ok(())
}
