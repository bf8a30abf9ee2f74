//! Types of what keeps the rules: which literal is meant, what is static, and what names with parentheses are.

use crate::common::with_declarations;
use crate::resolving::BUFFER;
use crate::tour::PROGRAMS;
use crate::types::{assert_typed, class, constant, types};
use ada_names::{LiteralId, resolve};
use ada_text::read;
use ada_text::tree::{DeclarationForm, ExpressionId};
use ada_types::{Access, Bounds, Class, Subtype, TypeForm, TypeId};
use std::test::Fail;

/// The programs of the tour keep the rules of types.
#[test]
fn types_the_programs_of_the_tour(rt: HostRuntime) {
    for text in PROGRAMS {
        assert_typed(&rt, text);
    }
}

/// So does a program of task types, families and subprograms.
#[test]
fn types_a_bounded_buffer(rt: HostRuntime) {
    assert_typed(&rt, BUFFER);
}

const DINNER: &[u8] = b"with TEXT_IO; use TEXT_IO;
procedure DINNER is
   SEATS : constant INTEGER := 3;
   subtype SEAT is INTEGER range 0 .. SEATS - 1;
   type STATE is (THINKING, HUNGRY, EATING);
   type STATES is array (SEAT) of STATE;

   task type FORK is
      entry TAKE;
      entry LAY_DOWN;
   end FORK;

   task type GUEST is
      entry SIT (PLACE : in SEAT; MEALS : in POSITIVE);
   end GUEST;

   task WAITER is
      entry NOTE (SEAT) (NOW : in STATE; BUSY : out BOOLEAN);
      entry LEAVE;
   end WAITER;

   FORKS : array (SEAT) of FORK;
   GUESTS : array (SEAT) of GUEST;

   function NEXT (PLACE : SEAT) return SEAT is
   begin
      if PLACE = SEAT'LAST then
         return SEAT'FIRST;
      end if;
      return SEAT'SUCC (PLACE);
   end NEXT;

   procedure TELL (PLACE : in SEAT; NOW : in STATE) is
   begin
      case NOW is
         when THINKING | HUNGRY => null;
         when EATING => PUT_LINE (SEAT'IMAGE (PLACE) & ' ' & STATE'IMAGE (NOW));
      end case;
   end TELL;

   task body FORK is
   begin
      loop
         select
            accept TAKE;
            accept LAY_DOWN;
         or
            terminate;
         end select;
      end loop;
   end FORK;

   task body GUEST is
      MINE : SEAT;
      LEFT : INTEGER range 0 .. 9;
      IS_BUSY : BOOLEAN;
   begin
      accept SIT (PLACE : in SEAT; MEALS : in POSITIVE) do
         MINE := PLACE;
         LEFT := MEALS;
      end SIT;
      while LEFT > 0 loop
         WAITER.NOTE (MINE) (HUNGRY, BUSY => IS_BUSY);
         if not IS_BUSY then
            FORKS (MINE).TAKE;
            FORKS (NEXT (PLACE => MINE)).TAKE;
            TELL (MINE, EATING);
            delay 0.001 * LEFT;
            FORKS (MINE).LAY_DOWN;
            FORKS (NEXT (MINE)).LAY_DOWN;
            LEFT := LEFT - 1;
         end if;
      end loop;
      WAITER.LEAVE;
   exception
      when CONSTRAINT_ERROR | TASKING_ERROR => PUT (\"a guest leaves\"); NEW_LINE;
   end GUEST;

   task body WAITER is
      NOTED : STATES := (others => THINKING);
      GONE : NATURAL := 0;
   begin
      while GONE < SEATS loop
         for PLACE in SEAT loop
            select
               accept NOTE (PLACE) (NOW : in STATE; BUSY : out BOOLEAN) do
                  NOTED (PLACE) := NOW;
                  BUSY := NOTED (NEXT (PLACE)) = EATING;
               end NOTE;
            or
               when LEAVE'COUNT > 0 =>
                  accept LEAVE;
                  GONE := GONE + 1;
            else
               delay 0.01;
            end select;
         end loop;
      end loop;
   end WAITER;
begin
   for PLACE in reverse GUESTS'RANGE loop
      GUESTS (PLACE).SIT (PLACE, MEALS => 2);
   end loop;
end DINNER;
";

/// So does one with arrays of tasks, whose guests share forks.
#[test]
fn types_a_dinner(rt: HostRuntime) {
    assert_typed(&rt, DINNER);
}

/// What is typed is whole, and isn't of a tree with fewer nodes.
#[test]
fn tells_types_that_are_not_whole(rt: HostRuntime) -> Result<(), Fail> {
    let typed = types(rt.alloc(), BUFFER)?;
    let tree = read(rt.alloc(), BUFFER)?;
    let resolved = resolve(rt.alloc(), BUFFER, &tree)?;
    assert!(rt; typed.is_whole(&tree, &resolved));
    let text = b"procedure P is begin null; end;";
    let other = read(rt.alloc(), text)?;
    assert!(rt; !typed.is_whole(&other, &resolved));
    Ok(())
}

/// Values of static expressions of type INTEGER (4.5.3 to 4.5.6, 4.9).
#[test]
fn knows_static_integers(rt: HostRuntime) -> Result<(), Fail> {
    let expressions: [(&[u8], Option<i64>); 34] = [
        (b"1 + 2 * 3", Some(7)),
        (b"(1 + 2) * 3", Some(9)),
        (b"16#FF#", Some(255)),
        (b"13 / 5", Some(2)),
        (b"13 rem 5", Some(3)),
        (b"13 mod 5", Some(3)),
        (b"13 / (-5)", Some(-2)),
        (b"13 rem (-5)", Some(3)),
        (b"13 mod (-5)", Some(-2)),
        (b"(-13) / 5", Some(-2)),
        (b"(-13) rem 5", Some(-3)),
        (b"(-13) mod 5", Some(2)),
        (b"(-13) / (-5)", Some(2)),
        (b"(-13) rem (-5)", Some(-3)),
        (b"(-13) mod (-5)", Some(-3)),
        (b"(-10) mod 5", Some(0)),
        (b"2 ** 10", Some(1024)),
        (b"-2 ** 2", Some(-4)),
        (b"(-2) ** 31", Some(-2_147_483_648)),
        (b"(-1) ** 1_000_001", Some(-1)),
        (b"abs (-5)", Some(5)),
        (b"- 2_147_483_648", Some(-2_147_483_648)),
        (b"INTEGER'FIRST", Some(-2_147_483_648)),
        (b"INTEGER'LAST", Some(2_147_483_647)),
        (b"POSITIVE'FIRST + NATURAL'FIRST", Some(1)),
        (b"INTEGER'SUCC (4) + INTEGER'PRED (4)", Some(8)),
        (b"BOOLEAN'POS (TRUE)", Some(1)),
        (b"CHARACTER'POS ('A')", Some(65)),
        (b"INTEGER'VAL (7)", Some(7)),
        (b"INTEGER'(9)", Some(9)),
        (b"POSITIVE'(0)", None),
        (b"INTEGER (3)", None),
        (b"3_000_000_000 - 2_999_999_999", Some(1)),
        (b"2 ** 40 / 2 ** 39", Some(2)),
    ];
    for (expression, value) in expressions {
        let mut text = b"C : constant INTEGER := ".to_vec(rt.alloc())?;
        text.extend_from_slice(expression)?;
        text.push(b';')?;
        assert_eq!(&rt; constant(&rt, &text)?, value);
    }
    Ok(())
}

/// Positions of static expressions of other types, and thousandths of a second.
#[test]
fn knows_static_values(rt: HostRuntime) -> Result<(), Fail> {
    let declarations: [(&[u8], Option<i64>); 17] = [
        (b"C : constant BOOLEAN := TRUE and FALSE;", Some(0)),
        (b"C : constant BOOLEAN := TRUE or FALSE;", Some(1)),
        (b"C : constant BOOLEAN := TRUE xor TRUE;", Some(0)),
        (b"C : constant BOOLEAN := not FALSE;", Some(1)),
        (b"C : constant BOOLEAN := 1 < 2;", Some(1)),
        (b"C : constant BOOLEAN := 'B' <= 'A';", Some(0)),
        (b"C : constant BOOLEAN := TRUE /= FALSE;", Some(1)),
        (b"C : constant BOOLEAN := BOOLEAN'LAST;", Some(1)),
        (b"C : constant BOOLEAN := 1 in 1 .. 2;", None),
        (b"C : constant BOOLEAN := TRUE and then TRUE;", None),
        (b"C : constant CHARACTER := 'x';", Some(120)),
        (b"C : constant CHARACTER := CHARACTER'SUCC ('A');", Some(66)),
        (b"C : constant DURATION := 0.5 + 0.25;", Some(750)),
        (b"C : constant DURATION := 2 * 0.5;", Some(1000)),
        (b"C : constant DURATION := 1.0 / 4;", Some(250)),
        (b"C : constant POSITIVE := 0;", None),
        (b"C : INTEGER := 1;", None),
    ];
    for (declaration, value) in declarations {
        assert_eq!(&rt; constant(&rt, declaration)?, value);
    }
    Ok(())
}

const COLOURS: &[u8] = b"procedure P is
type C is (RED, GREEN);
type D is (GREEN, RED, 'R', BLUE);
A : C := RED;
B : D := RED;
X : BOOLEAN := RED = A;
Y : BOOLEAN := RED < BLUE;
Z : BOOLEAN := B in GREEN .. RED;
W : array (C) of D := (RED => BLUE, GREEN => 'R');
V : BOOLEAN := C'(GREEN) = C'LAST;
U : CHARACTER := 'R';
begin
case B is
when RED => null;
when others => null;
end case;
end P;
";

/// The literal that a name in a line means.
fn literal(rt: &HostRuntime, name: &[u8], line: usize) -> Option<LiteralId> {
    match class(rt.alloc(), COLOURS, name, line) {
        Some(Class::Literal { literal, .. }) => Some(literal),
        _ => None,
    }
}

/// Types say which of several literals is meant (8.7): those of BOOLEAN have the numbers 0 and 1.
#[test]
fn chooses_literals(rt: HostRuntime) {
    assert_eq!(&rt; literal(&rt, b"RED", 4), Some(LiteralId(2)));
    assert_eq!(&rt; literal(&rt, b"RED", 5), Some(LiteralId(5)));
    assert_eq!(&rt; literal(&rt, b"RED", 6), Some(LiteralId(2)));
    assert_eq!(&rt; literal(&rt, b"RED", 7), Some(LiteralId(5)));
    assert_eq!(&rt; literal(&rt, b"GREEN", 8), Some(LiteralId(4)));
    assert_eq!(&rt; literal(&rt, b"RED", 9), Some(LiteralId(2)));
    assert_eq!(&rt; literal(&rt, b"GREEN", 9), Some(LiteralId(3)));
    assert_eq!(&rt; literal(&rt, b"'R'", 9), Some(LiteralId(6)));
    assert_eq!(&rt; literal(&rt, b"GREEN", 10), Some(LiteralId(3)));
    assert_eq!(&rt; literal(&rt, b"'R'", 11), None);
    assert_eq!(&rt; literal(&rt, b"RED", 14), Some(LiteralId(5)));
}

/// What names with parentheses are.
#[test]
fn tells_calls_from_components(rt: HostRuntime) {
    let alloc = rt.alloc();
    let component = class(alloc, BUFFER, b"(FREE)", 29);
    assert!(&rt;
        matches!(
            component,
            Some(Class::Object {
                access: Access::Variable,
                ..
            })
        )
    );
    let call = class(alloc, BUFFER, b"(FREE)", 31);
    assert!(&rt; matches!(call, Some(Class::Call { .. })));
    assert_eq!(&rt; class(alloc, BUFFER, b"PLACE", 38), Some(Class::Formal(0)));
    let task = class(alloc, BUFFER, b"(I)", 47);
    assert!(&rt;
        matches!(
            task,
            Some(Class::Object {
                access: Access::Constant,
                ..
            })
        )
    );
    let entry = class(alloc, BUFFER, b"PUT", 47);
    assert!(&rt; matches!(entry, Some(Class::Entry { position: 0, .. })));
}

/// Types and subtypes of declarations (3.3).
#[test]
fn notes_subtypes(rt: HostRuntime) -> Result<(), Fail> {
    let text = with_declarations(
        &rt,
        b"N : constant INTEGER := 4; subtype S is INTEGER range 0 .. N - 1; type T is range -5 .. N;
          type C is (RED, GREEN, BLUE); subtype W is C range GREEN .. BLUE; type A is array (S) \
          of T;
          L : INTEGER range 1 .. A'LENGTH;",
    )?;
    let typed = types(rt.alloc(), &text)?;
    let bounds = |index: usize| match typed.declarations.get(index) {
        Some(Some(declared)) => declared.subtype.bounds,
        _ => None,
    };
    assert_eq!(&rt; bounds(1), Some(Bounds { low: 0, high: 3 }));
    assert_eq!(&rt; bounds(2), Some(Bounds { low: -5, high: 4 }));
    assert_eq!(&rt; bounds(3), Some(Bounds { low: 0, high: 2 }));
    assert_eq!(&rt; bounds(4), Some(Bounds { low: 1, high: 2 }));
    assert_eq!(&rt; bounds(6), Some(Bounds { low: 1, high: 4 }));
    let index = Subtype::scalar(TypeId::INTEGER, Bounds { low: 0, high: 3 });
    let array = typed.types.last().copied();
    assert!(&rt; matches!(array, Some(TypeForm::Array { .. })));
    if let Some(TypeForm::Array { index: found, .. }) = array {
        assert_eq!(&rt; found, index);
    }
    Ok(())
}

/// The expressions of the subtypes of parameters, in their order.
fn marks(rt: &HostRuntime, text: &[u8]) -> Result<Vec<ExpressionId>, Fail> {
    let mut marks = Vec::new(rt.alloc());
    for node in &read(rt.alloc(), text)?.nodes.declarations {
        if let DeclarationForm::Subprogram { parameters, .. } = &node.form {
            for parameter in parameters {
                marks.push(parameter.subtype)?;
            }
        }
    }
    Ok(marks)
}

/// The subtype of a parameter is that of its mark (6.1).
#[test]
fn notes_subtypes_of_parameters(rt: HostRuntime) -> Result<(), Fail> {
    let typed = types(rt.alloc(), BUFFER)?;
    let marks = marks(&rt, BUFFER)?;
    assert_eq!(&rt; marks.len(), 1);
    let index = Subtype::scalar(TypeId::INTEGER, Bounds { low: 0, high: 2 });
    assert_eq!(&rt;
        marks.first().and_then(|mark| typed.subtype(*mark)),
        Some(index)
    );
    Ok(())
}
