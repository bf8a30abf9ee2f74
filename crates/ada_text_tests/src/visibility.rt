//! Which declaration a name denotes (chapter 8).

use crate::names::{assert_denotes, meaning, names};
use ada_names::{LiteralId, Meaning, Predefined};
use std::test::Fail;

const BLOCKS: &[u8] = b"procedure P is
X : INTEGER;
Y : INTEGER;
begin
X := 1;
declare
X : BOOLEAN := TRUE;
begin
X := FALSE;
declare
Z : INTEGER := Y;
begin
X := TRUE;
Y := Z;
end;
end;
X := 2;
end P;
";

/// An inner declaration hides an outer one to its end (8.3).
#[test]
fn hides_in_blocks(rt: HostRuntime) {
    assert_denotes(&rt, BLOCKS, b"X", 5, 2);
    assert_denotes(&rt, BLOCKS, b"X", 9, 7);
    assert_denotes(&rt, BLOCKS, b"Y", 11, 3);
    assert_denotes(&rt, BLOCKS, b"X", 13, 7);
    assert_denotes(&rt, BLOCKS, b"Y", 14, 3);
    assert_denotes(&rt, BLOCKS, b"X", 17, 2);
}

const LOOPS: &[u8] = b"procedure P is
I, K : INTEGER := 3;
begin
for I in K .. 5 loop
null;
null;
if
I > 4 then null; end if;
end loop;
I := 1;
L : for J in 1 .. 2 loop
while TRUE loop
exit L when
L.J = 2;
end loop;
exit;
end loop L;
end P;
";

/// The parameter of a loop is visible in its statements (5.5), and its name in its body (5.1).
#[test]
fn hides_in_loops(rt: HostRuntime) {
    assert_denotes(&rt, LOOPS, b"K", 4, 2);
    assert_denotes(&rt, LOOPS, b"I", 8, 4);
    assert_denotes(&rt, LOOPS, b"I", 10, 2);
    assert_denotes(&rt, LOOPS, b"L", 13, 11);
    assert_denotes(&rt, LOOPS, b"L", 14, 11);
    assert_denotes(&rt, LOOPS, b"J", 14, 11);
}

const SUBPROGRAMS: &[u8] = b"procedure P is
A : INTEGER;
procedure Q (A : in INTEGER;
B : out INTEGER);
function F (A : INTEGER) return INTEGER is
C : INTEGER :=
A;
begin return
F.C +
P.A; end F;
procedure Q (A : in INTEGER;
B : out INTEGER) is
begin
B :=
F (
A); end Q;
begin
Q (
A,
B => A);
end P;
";

/// Parameters are visible in their bodies, and hidden names by their units (4.1.3, 6.3).
#[test]
fn sees_parameters(rt: HostRuntime) {
    assert_denotes(&rt, SUBPROGRAMS, b"A", 7, 5);
    assert_denotes(&rt, SUBPROGRAMS, b"C", 9, 6);
    assert_denotes(&rt, SUBPROGRAMS, b"A", 10, 2);
    assert_denotes(&rt, SUBPROGRAMS, b"B", 14, 4);
    assert_denotes(&rt, SUBPROGRAMS, b"F", 15, 5);
    assert_denotes(&rt, SUBPROGRAMS, b"A", 16, 3);
    assert_denotes(&rt, SUBPROGRAMS, b"Q", 18, 3);
    assert_denotes(&rt, SUBPROGRAMS, b"A", 19, 2);
    assert!(rt; meaning(rt.alloc(), SUBPROGRAMS, b"B", 20).is_none());
}

const TASKS: &[u8] = b"procedure P is
V : INTEGER;
task T is
entry E (V : in INTEGER);
entry F (1 .. 3); end T;
task type U is entry E; end U;
X : array (1 .. 2) of U;
task body T is
V : INTEGER;
begin
accept E (V : in INTEGER) do
P.V :=
V;
T.V :=
E.V; end E;
accept F (2);
V :=
F (1)'COUNT;
end T;
task body U is begin accept
E; end U;
begin
T.E (1);
T.
F (2);
X (1).E;
end P;
";

/// Entries, their parameters, and what tasks declare (9.5).
#[test]
fn sees_entries(rt: HostRuntime) {
    assert_denotes(&rt, TASKS, b"E", 11, 4);
    assert_denotes(&rt, TASKS, b"V", 12, 2);
    assert_denotes(&rt, TASKS, b"V", 13, 11);
    assert_denotes(&rt, TASKS, b"V", 14, 9);
    assert_denotes(&rt, TASKS, b"V", 15, 11);
    assert_denotes(&rt, TASKS, b"F", 16, 5);
    assert_denotes(&rt, TASKS, b"V", 17, 9);
    assert_denotes(&rt, TASKS, b"F", 18, 5);
    assert_denotes(&rt, TASKS, b"E", 21, 6);
    assert_denotes(&rt, TASKS, b"E", 23, 4);
    assert_denotes(&rt, TASKS, b"F", 25, 5);
    assert!(rt; meaning(rt.alloc(), TASKS, b"E", 26).is_none());
}

const LITERALS: &[u8] = b"procedure P is
type A is (RED, GREEN);
type B is (BLUE, RED);
X : A :=
RED;
begin
declare
type C is ('x', FALSE, RED);
Y : C :=
RED;
Z : CHARACTER :=
'x';
GREEN : C;
begin
Y :=
GREEN;
end;
X :=
GREEN;
if
FALSE then null; end if;
end P;
";

/// Literals of different types overload one another, and others hide them (3.5.1, 8.3).
#[test]
fn overloads_literals(rt: HostRuntime) {
    assert_denotes(&rt, LITERALS, b"RED", 5, 3);
    assert_denotes(&rt, LITERALS, b"RED", 10, 8);
    assert_denotes(&rt, LITERALS, b"'x'", 12, 8);
    assert_denotes(&rt, LITERALS, b"GREEN", 16, 13);
    assert_denotes(&rt, LITERALS, b"GREEN", 19, 2);
    assert_eq!(rt;
        meaning(rt.alloc(), LITERALS, b"FALSE", 21),
        Some(Meaning::Literal(LiteralId::FALSE))
    );
}

/// The literals that a literal overloads are listed from the innermost one outwards: those of A are 2 and 3, those of B
/// 4 and 5, and those of C 6 to 8.
#[test]
fn lists_overloaded_literals(rt: HostRuntime) -> Result<(), Fail> {
    let literals = names(rt.alloc(), LITERALS)?.literals;
    let overloaded = [
        None,
        None,
        None,
        None,
        None,
        Some(2),
        None,
        Some(0),
        Some(5),
    ];
    assert_eq!(rt; literals.len(), 9);
    for (literal, expected) in literals.iter().zip(&overloaded) {
        assert_eq!(rt; literal.overloaded.map(|id| id.0), *expected);
    }
    Ok(())
}

const PREDEFINED: &[u8] = b"with Text_IO; use TEXT_IO;
procedure P is
A :
Integer;
B : BOOLEAN;
type INTEGER is range 1 .. 3;
C :
INTEGER;
begin
PUT_LINE (\"\");
TEXT_IO.PUT_LINE (\"\");
B := STANDARD.TRUE;
end P;
";

/// What is predefined is hidden as if it were declared around the program (annex C, 8.4).
#[test]
fn sees_predefined_names(rt: HostRuntime) {
    assert_eq!(rt;
        meaning(rt.alloc(), PREDEFINED, b"Integer", 4),
        Some(Meaning::Predefined(Predefined::Integer))
    );
    assert_eq!(rt;
        meaning(rt.alloc(), PREDEFINED, b"PUT_LINE", 10),
        Some(Meaning::Predefined(Predefined::PutLine))
    );
    assert_eq!(rt;
        meaning(rt.alloc(), PREDEFINED, b"PUT_LINE", 11),
        Some(Meaning::Predefined(Predefined::PutLine))
    );
    assert_eq!(rt;
        meaning(rt.alloc(), PREDEFINED, b"TRUE", 12),
        Some(Meaning::Literal(LiteralId::TRUE))
    );
    assert_denotes(&rt, PREDEFINED, b"INTEGER", 8, 6);
}

const HOMES: &[u8] = b"procedure P is
task T;
procedure Q;
task body T is
V : INTEGER;
begin
declare
W : INTEGER;
begin null; end;
end T;
procedure Q is begin null; end Q;
begin null; end P;
";

/// Where the declarations stand, in the order of the tree, which has those of a body before its own: T, Q, V, W, the
/// body of T and the body of Q. The bodies are those of the block, T, Q and P.
#[test]
fn notes_where_declarations_stand(rt: HostRuntime) -> Result<(), Fail> {
    let resolved = names(rt.alloc(), HOMES)?;
    let homes = [(3, 0), (3, 0), (1, 1), (0, 2), (3, 0), (3, 0)];
    let bodies = [Some(1), Some(2), None, None, Some(1), Some(2)];
    assert_eq!(rt; resolved.homes.len(), 6);
    for (home, expected) in resolved.homes.iter().zip(&homes) {
        assert_eq!(rt; (home.body.0, home.level), *expected);
    }
    for (body, expected) in resolved.bodies.iter().zip(&bodies) {
        assert_eq!(rt; body.map(|body| body.0), *expected);
    }
    Ok(())
}
