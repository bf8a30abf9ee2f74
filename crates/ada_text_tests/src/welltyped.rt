//! What keeps the rules of types: declarations and statements of each kind.

use crate::common::{with_declarations, with_statements};
use crate::types::assert_typed;
use std::process::Abort;
use std::test::Fail;

/// The declarations keep the rules of types.
fn assert_declared<R: Abort + AllocGlobal>(rt: &R, texts: &[&'static [u8]]) -> Result<(), Fail> {
    for declarations in texts {
        assert_typed(rt, &with_declarations(rt, declarations)?);
    }
    Ok(())
}

/// The statements keep the rules of types.
fn assert_stated<R: Abort + AllocGlobal>(rt: &R, texts: &[&'static [u8]]) -> Result<(), Fail> {
    for statements in texts {
        assert_typed(rt, &with_statements(rt, statements)?);
    }
    Ok(())
}

/// Objects of scalar types, and expressions of them (3.5, 4.4).
#[test]
fn types_scalar_objects(rt: HostRuntime) -> Result<(), Fail> {
    assert_declared(
        &rt,
        &[
            b"A : INTEGER := 1; B : NATURAL := A + 1; C, D : constant POSITIVE := A * B;",
            b"type T is range 1 .. 9; A : T := 3; B : INTEGER := INTEGER (A) + 1; C : T := T (B) \
              * 2 - A ** 2;",
            b"A : DURATION := 0.5; B : DURATION := A * 2 + 2 * A - A / 2; C : BOOLEAN := A < 1.0 \
              and - A /= B;",
            b"A : DURATION := DURATION (INTEGER'(3)); B : BOOLEAN := A >= 0.5;",
            b"A : BOOLEAN := 5 in 1 .. 9; B : BOOLEAN := 'A' not in 'B' .. 'C'; C : BOOLEAN := A \
              in FALSE .. TRUE;",
            b"A : INTEGER := 3; B : BOOLEAN := (A in POSITIVE and then A in 1 .. A) or else A not \
              in -1 .. 1;",
            b"A : BOOLEAN := BOOLEAN'POS (TRUE) = 1; B : INTEGER := CHARACTER'POS ('A') - 64;",
            b"A : INTEGER := 3; B : INTEGER := BOOLEAN'POS (A > 2) + 1; C : CHARACTER := \
              CHARACTER'VAL (A + 64);",
            b"A : INTEGER := 3; B : INTEGER := A ** 2 mod 4 rem (-3) / 2; C : INTEGER := abs A - \
              (- A) + (+ A);",
            b"type C is (RED, GREEN); A : C := C'SUCC (RED); B : C := C'PRED (A); D : C := C'VAL \
              (C'POS (A) - 1);",
            b"type C is (A, B); type D is (A, B); X : C := A; Y : BOOLEAN := X = A; Z : BOOLEAN \
              := D'(A) < B; W : BOOLEAN := B > X;",
            b"type C is ('A', 'B'); X : C := 'A'; Y : CHARACTER := 'A'; Z : BOOLEAN := X < 'B' \
              and Y < 'B';",
            b"type C is (TRUE, MAYBE); A : C := TRUE; B : BOOLEAN := not TRUE; D : BOOLEAN := \
              TRUE and B;",
            b"subtype S is INTEGER range -1 .. 1; subtype T is S range 0 .. 1; A : T := T'LAST; B \
              : S := A; C : S range 0 .. 0 := 0;",
            b"type T is range -10 .. 10; subtype S is T range T'FIRST / 2 .. T'LAST / 2; A : S := \
              - 5; B : T := A + 1;",
            b"subtype S is INTEGER range 5 .. 1; A : array (1 .. 0) of INTEGER; type T is range 1 \
              .. 2;",
        ],
    )
}

/// Arrays and aggregates (3.6, 4.3).
#[test]
fn types_arrays(rt: HostRuntime) -> Result<(), Fail> {
    assert_declared(
        &rt,
        &[
            b"type C is (RED, GREEN); A : array (C) of BOOLEAN := (TRUE, FALSE); B : BOOLEAN := A \
              (RED) xor A (C'LAST);",
            b"A : array (1 .. 3) of INTEGER := (1 | 3 => 0, 2 => 1); B : array (1 .. 3) of \
              INTEGER := (1, others => 2);",
            b"A, B : array (1 .. 3) of INTEGER := (others => 0); C : INTEGER;",
            b"type T is array (1 .. 3) of INTEGER; A, B : T := (others => 0); C : BOOLEAN := A = \
              B or A /= (1, 2, 3);",
            b"type T is array (1 .. 3) of INTEGER; A : T := T'(1 => 1, others => 2); B : T := A; \
              C : T := T (B);",
            b"type T is array (BOOLEAN) of CHARACTER; A : T := (FALSE => 'A', TRUE => 'B'); B : T \
              := (BOOLEAN => 'C');",
            b"type T is array (1 .. 5) of INTEGER; A : T := (1 .. 2 => 1, 4 | 5 => 2, 3 => 3); B \
              : T := (T'RANGE => 0);",
            b"type T is array (INTEGER range -1 .. 1) of INTEGER; A : T := (-1 => 1, 0 .. 1 => \
              2); B : INTEGER := A (-1);",
            b"type T is array (POSITIVE range 1 .. 4) of INTEGER; A : T; B : INTEGER := A'LENGTH \
              + T'FIRST + A'LAST;",
            b"type T is array (0 .. 3) of INTEGER; function F return T is begin return (0 => 1, \
              others => 2); end F;
              procedure Q is A : INTEGER := F (1); B : T := F; begin B (F (2)) := A; end Q;",
            b"type T is array (1 .. 2) of INTEGER; procedure Q (A : T; B : in out T; C : out T) is
              begin B (1) := A (2); C := B; C (C'LAST) := C'LENGTH; end Q;
              procedure R is A : T := (1, 2); begin Q ((1 => 1, others => 2), A, A); end R;",
        ],
    )
}

/// Subprograms and their calls (chapter 6).
#[test]
fn types_calls(rt: HostRuntime) -> Result<(), Fail> {
    assert_declared(
        &rt,
        &[
            b"function F (A, B : INTEGER) return INTEGER is begin return A * B; end F;
              procedure Q is X : INTEGER := F (B => 1, A => 2) + F (1, B => 2) + F (1, 2); begin \
              null; end Q;",
            b"procedure Q (A : in out INTEGER) is begin A := A + 1; end Q;
              procedure R is X : INTEGER := 1; Y : array (1 .. 2) of INTEGER := (1, 2); begin Q \
              (X); Q (Y (X)); Q (A => X); end R;",
            b"procedure R (A : out BOOLEAN); procedure Q is X : BOOLEAN; begin R (X); end Q;
              procedure R (A : out BOOLEAN) is begin A := TRUE; end R;",
            b"function F return INTEGER is begin if TRUE then return 1; end if; return 2; end F;
              procedure Q is X : INTEGER := F; begin X := F + F; return; end Q;",
            b"procedure Q is procedure R is begin null; end R; begin R; R; end Q; procedure S is \
              begin Q; Q; end S;",
            b"function F (C : CHARACTER) return BOOLEAN is begin return C in 'A' .. 'Z'; end F;
              procedure Q is X : BOOLEAN := F ('A'); begin if F (C => 'B') and X then Q.X := F \
              ('C'); end if; end Q;",
            b"procedure Q is begin delay 0.5; end Q; procedure R is begin Q; end R; task T; task \
              body T is begin R; end T;",
        ],
    )
}

/// Statements (chapter 5).
#[test]
fn types_statements(rt: HostRuntime) -> Result<(), Fail> {
    assert_stated(
        &rt,
        &[
            b"for I in reverse 1 .. 3 loop for J in I .. 2 * I loop exit when I = J; end loop; \
              end loop; return;",
            b"for B in BOOLEAN loop for C in 'A' .. 'C' loop null; end loop; end loop;",
            b"for I in INTEGER range -1 .. 1 loop for J in POSITIVE range 1 .. 2 loop null; end \
              loop; end loop;",
            b"declare A : array (1 .. 3) of INTEGER; begin for I in A'RANGE loop A (I) := I; end \
              loop; end;",
            b"declare N : INTEGER := 3; begin for I in N .. N + 1 loop N := I; end loop; while N \
              > 1 loop N := N - 1; end loop; end;",
            b"declare A : INTEGER := 1; begin case A is when 1 | 3 => null; when 4 .. 9 => null; \
              when others => null; end case; end;",
            b"declare A : INTEGER range 1 .. 3 := 1; begin case A is when 1 => null; when 2 .. 3 \
              => null; end case; end;",
            b"declare A : CHARACTER := 'A'; begin case A is when 'A' .. 'Z' => null; when others \
              => null; end case; end;",
            b"declare type C is (RED, GREEN, BLUE); subtype S is C range RED .. GREEN; A : C := \
              RED; begin
              case A is when S => null; when BLUE => null; end case;
              case S'(A) is when RED => null; when GREEN => null; end case;
              case C'SUCC (A) is when RED .. BLUE => null; end case; end;",
            b"declare A : BOOLEAN := TRUE; begin case A is when TRUE => null; when FALSE => null; \
              when others => null; end case; end;",
            b"declare E : exception; begin raise E; exception when E | CONSTRAINT_ERROR => raise; \
              when others => null; end;",
            b"declare A, B : INTEGER := 1; begin if A = B then A := B; elsif A < B then B := A; \
              else null; end if; end;",
        ],
    )
}

/// Tasks (chapter 9).
#[test]
fn types_tasks(rt: HostRuntime) -> Result<(), Fail> {
    assert_declared(
        &rt,
        &[
            b"task T is entry E (BOOLEAN) (A : INTEGER; B : out INTEGER); end T; task U;
              task body T is begin accept E (TRUE) (A : INTEGER; B : out INTEGER) do B := A; end E;
              if E (FALSE)'COUNT > 0 or T.E (TRUE)'COUNT = 1 then null; end if; end T;
              task body U is X : INTEGER; begin T.E (TRUE) (1, X); T.E (FALSE) (B => X, A => 2); \
              end U;",
            b"task type T is entry E; entry F (1 .. 2); end T; A : array (1 .. 2) of T; B : T;
              task body T is begin accept E; accept F (1); if T'TERMINATED or B'CALLABLE then \
              abort T; end if; end T;
              task U; task body U is begin A (1).E; B.F (2); select A (2).F (1); else null; end \
              select; abort A (1), B; end U;",
            b"task T is entry E; end T; task body T is N : INTEGER := 0; begin
              select when N < 3 and E'COUNT > 0 => accept E do N := N + 1; end E; or when N > 1 \
              => delay 2 * 0.5; end select;
              end T;",
            b"task T is entry E (A : in out INTEGER); end T; task body T is begin
              accept E (A : in out INTEGER) do A := A + 1; end E; end T;
              task U; task body U is N : INTEGER := 1; begin select T.E (N); or delay 0.1; end \
              select; end U;",
        ],
    )
}
