//! What the visibility rules refuse, each with its place: mostly the beginning of the third line.

use crate::common::{with_declarations, with_statements};
use crate::names::{assert_resolved, assert_unresolved};
use ada_text::Cause;
use std::process::Abort;
use std::test::Fail;

/// Declarations of which the third line of the text begins with what is refused, and why.
type Refused = (&'static [u8], Cause);

/// Each of these declarations is refused.
fn assert_misdeclared<R: Abort + AllocGlobal>(rt: &R, refused: &[Refused]) -> Result<(), Fail> {
    for (declarations, cause) in refused {
        let text = with_declarations(rt, declarations)?;
        assert_unresolved(rt, &text, 3, 1, *cause);
    }
    Ok(())
}

/// Each of these statements is refused.
fn assert_misstated<R: Abort + AllocGlobal>(rt: &R, refused: &[Refused]) -> Result<(), Fail> {
    for (statements, cause) in refused {
        let text = with_statements(rt, statements)?;
        assert_unresolved(rt, &text, 3, 1, *cause);
    }
    Ok(())
}

/// Names without a declaration (8.3).
#[test]
fn refuses_undeclared_names(rt: HostRuntime) -> Result<(), Fail> {
    assert_misdeclared(
        &rt,
        &[
            (b"A : INTEGER :=\nB;", Cause::NotDeclared),
            (b"A :\nCOLOUR;", Cause::NotDeclared),
            (b"A : array (1 ..\nN) of INTEGER;", Cause::NotDeclared),
            (b"A : array (1 .. 2) of\nT;", Cause::NotDeclared),
            (b"type T is range 1 ..\nN;", Cause::NotDeclared),
            (b"subtype S is\nT range 1 .. 2;", Cause::NotDeclared),
            (b"subtype S is INTEGER range 1 ..\nN;", Cause::NotDeclared),
            (
                b"procedure Q (A :\nT) is begin null; end;",
                Cause::NotDeclared,
            ),
            (
                b"function F return\nT is begin return 1; end;",
                Cause::NotDeclared,
            ),
            (b"task T is entry E (A :\nC); end T;", Cause::NotDeclared),
            (b"task T is entry E (1 ..\nN); end T;", Cause::NotDeclared),
            (b"A :\nFLOAT;", Cause::RealTypes),
            (
                b"A : CHARACTER := 'x'; B : INTEGER := INTEGER'POS (\nX);",
                Cause::NotDeclared,
            ),
        ],
    )?;
    assert_misstated(
        &rt,
        &[
            (b"null;\nA := 1;", Cause::NotDeclared),
            (b"if\nA then null; end if;", Cause::NotDeclared),
            (b"case 1 is when\nA => null; end case;", Cause::NotDeclared),
            (b"while\nA loop null; end loop;", Cause::NotDeclared),
            (
                b"for I in 1 ..\nI loop null; end loop;",
                Cause::UsedBeforeDeclaration,
            ),
            (
                b"declare I : INTEGER; begin for I in\nI .. 2 loop null; end loop; end;",
                Cause::UsedBeforeDeclaration,
            ),
            (
                b"for I in 1 .. 2 loop null; end loop;\nI := 1;",
                Cause::NotDeclared,
            ),
            (b"select\nT.E; else null; end select;", Cause::NotDeclared),
            (b"delay\nD;", Cause::NotDeclared),
            (b"abort\nT;", Cause::NotDeclared),
            (b"raise\nE;", Cause::NotDeclared),
            (b"loop exit when\nA; end loop;", Cause::NotDeclared),
            (b"null; exception when\nE => null;", Cause::NotDeclared),
            (
                b"declare A : INTEGER; begin null; end;\nA := 1;",
                Cause::NotDeclared,
            ),
            (b"return\nA;", Cause::NotDeclared),
        ],
    )
}

/// Names before the end of their declaration (8.3).
#[test]
fn refuses_names_before_their_declaration(rt: HostRuntime) -> Result<(), Fail> {
    let cause = Cause::UsedBeforeDeclaration;
    assert_misdeclared(
        &rt,
        &[
            (b"A : INTEGER :=\nA;", cause),
            (b"A : INTEGER :=\nB; B : INTEGER;", cause),
            (b"A :\nC; type C is (RED);", cause),
            (b"A : INTEGER :=\nRED; type C is (RED);", cause),
            (
                b"A : INTEGER; procedure Q is A : INTEGER :=\nA; begin null; end Q;",
                cause,
            ),
            (
                b"procedure Q is A : INTEGER :=\nF; begin null; end;
                  function F return INTEGER is begin return 1; end;",
                cause,
            ),
            (b"type T is array (1 .. 2) of\nT;", cause),
            (
                b"function F (A :\nF) return INTEGER is begin return 1; end;",
                cause,
            ),
        ],
    )
}

/// Two declarations in one declarative region (8.3).
#[test]
fn refuses_second_declarations(rt: HostRuntime) -> Result<(), Fail> {
    let cause = Cause::DeclaredTwice;
    assert_misdeclared(
        &rt,
        &[
            (b"A : INTEGER;\nA : BOOLEAN;", cause),
            (b"A,\na : INTEGER;", cause),
            (b"A : INTEGER; type C is (RED,\nA);", cause),
            (b"type C is (RED,\nRED);", cause),
            (b"type C is (RED);\nRED : C;", cause),
            (b"procedure Q (A,\nA : INTEGER) is begin null; end;", cause),
            (
                b"procedure Q (A : INTEGER) is\nA : INTEGER; begin null; end;",
                cause,
            ),
            (b"procedure Q; procedure\nQ;", cause),
            (b"procedure Q; Q1 : INTEGER;\nQ : INTEGER;", cause),
            (
                b"task T is entry E; end T; task body T is\nE : INTEGER; begin null; end;",
                cause,
            ),
            (b"task T is entry E (A,\nA : INTEGER); end T;", cause),
            (b"task T; task type\nT;", cause),
            (b"E : exception;\nE : exception;", cause),
        ],
    )?;
    assert_misstated(
        &rt,
        &[
            (
                b"L : loop exit; end loop L;\nL : loop exit; end loop L;",
                cause,
            ),
            (b"L : loop\nL : loop exit; end loop L; end loop L;", cause),
            (
                b"if TRUE then L : loop exit; end loop L; end if;\nL : begin null; end L;",
                cause,
            ),
            (
                b"declare L : INTEGER; begin\nL : loop exit; end loop L; end;",
                cause,
            ),
        ],
    )
}

/// Overloading of subprograms and entries (6.6, 9.5), which isn't in the subset.
#[test]
fn refuses_overloading(rt: HostRuntime) -> Result<(), Fail> {
    let cause = Cause::Overloading;
    assert_misdeclared(
        &rt,
        &[
            (b"procedure Q; procedure\nQ (A : INTEGER);", cause),
            (
                b"procedure Q is begin null; end; procedure\nQ (A : INTEGER) is begin null; end;",
                cause,
            ),
            (
                b"type C is (RED); function\nRED return C is begin return RED; end;",
                cause,
            ),
            (
                b"task T is entry E; entry\nE (A : INTEGER); end T;
                  task body T is begin null; end;",
                cause,
            ),
        ],
    )
}

/// Bodies without declarations, and declarations without bodies (3.9, 6.3, 9.1).
#[test]
fn refuses_what_has_no_counterpart(rt: HostRuntime) -> Result<(), Fail> {
    assert_misdeclared(
        &rt,
        &[
            (
                b"task body\nT is begin null; end;",
                Cause::BodyWithoutDeclaration,
            ),
            (
                b"T : INTEGER; task body\nT is begin null; end;",
                Cause::BodyWithoutDeclaration,
            ),
            (
                b"task T; procedure Q is task body\nT is begin null; end; begin null; end;",
                Cause::BodyWithoutDeclaration,
            ),
            (b"task\nT;", Cause::NoBody),
            (b"task type\nT;", Cause::NoBody),
            (b"procedure\nQ;", Cause::NoBody),
            (b"function\nF return INTEGER;", Cause::NoBody),
            (
                b"task T; task body T is begin null; end; task body\nT is begin null; end;",
                Cause::SecondBody,
            ),
            (
                b"procedure Q is begin null; end; procedure\nQ is begin null; end;",
                Cause::SecondBody,
            ),
        ],
    )
}

/// Bodies of subprograms that aren't headed as these are declared (6.3.1).
#[test]
fn refuses_other_specifications(rt: HostRuntime) -> Result<(), Fail> {
    let cause = Cause::OtherSpecification;
    assert_misdeclared(
        &rt,
        &[
            (
                b"procedure Q (A : INTEGER); procedure\nQ (B : INTEGER) is begin null; end;",
                cause,
            ),
            (
                b"procedure Q (A : INTEGER); procedure\nQ (A : NATURAL) is begin null; end;",
                cause,
            ),
            (
                b"procedure Q (A : INTEGER); procedure\nQ (A : out INTEGER) is begin null; end;",
                cause,
            ),
            (
                b"procedure Q (A : INTEGER); procedure\nQ (A, B : INTEGER) is begin null; end;",
                cause,
            ),
            (
                b"procedure Q (A : INTEGER); procedure\nQ is begin null; end;",
                cause,
            ),
            (
                b"function F return INTEGER; function\nF return NATURAL is begin return 1; end;",
                cause,
            ),
            (
                b"function F return INTEGER; procedure\nF is begin null; end;",
                cause,
            ),
        ],
    )?;
    let text = with_declarations(
        &rt,
        b"procedure Q (A, B : INTEGER);
          procedure q (a : in integer; b : in Integer) is begin null; end Q;",
    )?;
    assert_resolved(&rt, &text);
    Ok(())
}

/// A task with this statement, which begins in the fourth line.
fn with_task_statement<R: AllocGlobal>(rt: &R, statement: &[u8]) -> Result<Vec<u8>, Fail> {
    let mut declarations = Vec::new(rt.alloc());
    declarations.extend_from_slice(
        b"task T is entry E (A : INTEGER; B : out BOOLEAN); entry F (1 .. 3) (A : INTEGER);
          entry G; end T; task body T is begin\n",
    )?;
    declarations.extend_from_slice(statement)?;
    declarations.extend_from_slice(b" end T;")?;
    with_declarations(rt, &declarations)
}

/// Accept statements with the columns where their faults lie, and why.
const ACCEPTS: [(&[u8], u32, Cause); 13] = [
    (b"accept E;", 8, Cause::OtherParameters),
    (b"accept E (A : INTEGER);", 8, Cause::OtherParameters),
    (
        b"accept E (A : INTEGER; C : out BOOLEAN);",
        8,
        Cause::OtherParameters,
    ),
    (
        b"accept E (A : INTEGER; B : in out BOOLEAN);",
        8,
        Cause::OtherParameters,
    ),
    (
        b"accept E (A : NATURAL; B : out BOOLEAN);",
        8,
        Cause::OtherParameters,
    ),
    (b"accept F (A : INTEGER);", 8, Cause::FamilyIndex),
    (b"accept G (1);", 8, Cause::FamilyIndex),
    (b"accept H;", 8, Cause::NoSuchEntry),
    (
        b"accept G do accept G; end G;",
        20,
        Cause::AcceptWithinAccept,
    ),
    (
        b"accept F (1) (A : INTEGER) do accept F (2) (A : INTEGER); end F;",
        38,
        Cause::AcceptWithinAccept,
    ),
    (
        b"declare procedure Q is begin accept G; end Q; begin null; end;",
        37,
        Cause::AcceptOutsideOfTask,
    ),
    (
        b"loop accept G do exit; end G; end loop;",
        18,
        Cause::ExitOutsideOfLoop,
    ),
    (b"return;", 1, Cause::ReturnOutsideOfSubprogram),
];

/// 9.5, 5.7 and 5.8.
#[test]
fn refuses_accept_statements(rt: HostRuntime) -> Result<(), Fail> {
    for (statement, column, cause) in ACCEPTS {
        let text = with_task_statement(&rt, statement)?;
        assert_unresolved(&rt, &text, 4, column, cause);
    }
    let text = with_task_statement(
        &rt,
        b"accept G do accept E (a : in integer; B : out BOOLEAN);
          accept F (2) (A : INTEGER); end G;",
    )?;
    assert_resolved(&rt, &text);
    assert_misstated(&rt, &[(b"accept\nE;", Cause::AcceptOutsideOfTask)])
}

/// Exit statements (5.7).
#[test]
fn refuses_exit_statements(rt: HostRuntime) -> Result<(), Fail> {
    assert_misstated(
        &rt,
        &[
            (b"null;\nexit;", Cause::ExitOutsideOfLoop),
            (
                b"loop declare procedure Q is begin\nexit; end; begin null; end; end loop;",
                Cause::ExitOutsideOfLoop,
            ),
            (
                b"L : loop exit; end loop L; loop exit\nL; end loop;",
                Cause::NoSuchLoop,
            ),
            (
                b"B : begin loop exit\nB; end loop; end B;",
                Cause::NoSuchLoop,
            ),
            (b"loop exit\nL; end loop;", Cause::NotDeclared),
            (
                b"L : loop declare procedure Q is begin loop exit\nL; end loop; end;
                  begin null; end;
                  end loop L;",
                Cause::NoSuchLoop,
            ),
        ],
    )?;
    let text = with_statements(
        &rt,
        b"L : loop loop begin exit L; exception when others => exit; end; end loop; end loop L;",
    )?;
    assert_resolved(&rt, &text);
    Ok(())
}

/// Raise statements and handlers (11.2, 11.3).
#[test]
fn refuses_exceptions(rt: HostRuntime) -> Result<(), Fail> {
    assert_misstated(
        &rt,
        &[
            (b"null;\nraise;", Cause::RaiseOutsideOfHandler),
            (
                b"null; exception when others => declare procedure Q is begin\nraise; end;
                  begin null; end;",
                Cause::RaiseOutsideOfHandler,
            ),
            (b"raise\nINTEGER;", Cause::NoException),
            (
                b"null; exception when\nINTEGER => null;",
                Cause::NoException,
            ),
            (b"null; exception when\n1 => null;", Cause::NoException),
            (
                b"null; exception when PROGRAM_ERROR => null; when\nProgram_Error => null;",
                Cause::HandledTwice,
            ),
            (
                b"null; exception when TASKING_ERROR |\nTASKING_ERROR => null;",
                Cause::HandledTwice,
            ),
            (
                b"null; exception when\nothers => null; when TASKING_ERROR => null;",
                Cause::OthersNotLast,
            ),
            (
                b"null; exception when TASKING_ERROR |\nothers => null;",
                Cause::OthersNotLast,
            ),
        ],
    )?;
    let text = with_declarations(
        &rt,
        b"E, F : exception; procedure Q is begin raise E;
          exception when E | NUMERIC_ERROR => begin raise;
          exception when E => raise F; end; when CONSTRAINT_ERROR | F | STORAGE_ERROR => raise;
          when others => if TRUE then raise; end if; end Q;",
    )?;
    assert_resolved(&rt, &text);
    Ok(())
}

/// Names after a point (4.1.3).
#[test]
fn refuses_selectors(rt: HostRuntime) -> Result<(), Fail> {
    assert_misstated(
        &rt,
        &[
            (b"P.\nA := 1;", Cause::NoSuchSelector),
            (b"INTEGER.\nA := 1;", Cause::NoSuchSelector),
            (b"STANDARD.\nA := 1;", Cause::NoSuchSelector),
            (
                b"L : loop exit; end loop L; L.\nI := 1;",
                Cause::NoSuchSelector,
            ),
            (
                b"B : declare C : INTEGER; begin B.\nD := 1; end B;",
                Cause::NoSuchSelector,
            ),
            (
                b"declare procedure Q (C : INTEGER) is begin null; end; begin Q.\nC := 1; end;",
                Cause::NoSuchSelector,
            ),
            (
                b"declare task T is entry E; end; task body T is begin null; end; begin T.\nF;
                  end;",
                Cause::NoSuchEntry,
            ),
            (
                b"declare task type T is entry E; end; task body T is begin null; end; begin T.\nE;
                  end;",
                Cause::NoSuchSelector,
            ),
        ],
    )
}

/// Names of TEXT_IO without its clauses, and others than those of the subset (8.4, 14.3).
#[test]
fn refuses_names_of_text_io(rt: HostRuntime) -> Result<(), Fail> {
    assert_misstated(
        &rt,
        &[
            (b"null;\nPUT_LINE (\"\");", Cause::TextIoNotNamed),
            (b"null;\nText_IO.PUT (\"\");", Cause::TextIoNotNamed),
        ],
    )?;
    assert_unresolved(
        &rt,
        b"with TEXT_IO; procedure P is begin\nNEW_LINE; end P;",
        2,
        1,
        Cause::TextIoNotNamed,
    );
    assert_unresolved(
        &rt,
        b"with TEXT_IO; procedure P is begin TEXT_IO.\nGET (P); end P;",
        2,
        1,
        Cause::OfTextIo,
    );
    assert_unresolved(
        &rt,
        b"with TEXT_IO; use TEXT_IO; procedure P is begin\nSet_Col (3); end P;",
        2,
        1,
        Cause::OfTextIo,
    );
    assert_resolved(
        &rt,
        b"with TEXT_IO; procedure PUT is begin TEXT_IO.NEW_LINE; end PUT;",
    );
    Ok(())
}

/// A text with many names takes no longer for each.
#[test]
fn resolves_many_names(rt: HostRuntime) -> Result<(), Fail> {
    let mut text = Vec::new(rt.alloc());
    text.extend_from_slice(b"procedure P is\n")?;
    for number in 0..30_000 {
        let name = format!(in rt.alloc(); "N{number}, ")?;
        text.extend_from_slice(name.as_bytes())?;
    }
    text.extend_from_slice(b"N : INTEGER; begin\n")?;
    for number in 0..30_000 {
        let statement = format!(in rt.alloc(); "N{number}:=1;\n")?;
        text.extend_from_slice(statement.as_bytes())?;
    }
    text.extend_from_slice(b"end P;")?;
    assert_resolved(&rt, &text);
    Ok(())
}
