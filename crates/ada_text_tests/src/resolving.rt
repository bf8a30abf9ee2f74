//! Names of whole programs.

use crate::names::{assert_resolved, names};
use crate::tour::PROGRAMS;
use ada_text::read;
use std::test::Fail;

/// The names of the programs of the tour are resolved.
#[test]
fn resolves_the_programs_of_the_tour(rt: HostRuntime) {
    for text in PROGRAMS {
        assert_resolved(&rt, text);
    }
}

pub const BUFFER: &[u8] = b"with TEXT_IO;
procedure BUFFER is
   SIZE : constant INTEGER := 3;
   subtype INDEX is INTEGER range 0 .. SIZE - 1;
   type ITEMS is array (INDEX) of INTEGER;

   task type STORE is
      entry PUT (ITEM : in INTEGER);
      entry GET (ITEM : out INTEGER);
   end STORE;

   type STORES is array (1 .. 2) of STORE;
   ALL_STORES : STORES;

   function NEXT (PLACE : INDEX) return INDEX is
   begin
      return (PLACE + 1) mod SIZE;
   end NEXT;

   task body STORE is
      KEPT : ITEMS := (others => 0);
      FIRST, FREE : INDEX := INDEX'FIRST;
      COUNT : INTEGER range 0 .. SIZE := 0;
   begin
      loop
         select
            when COUNT < SIZE =>
               accept PUT (ITEM : in INTEGER) do
                  KEPT (FREE) := ITEM;
               end PUT;
               FREE := NEXT (FREE);
               COUNT := COUNT + 1;
         or
            when COUNT > 0 =>
               accept GET (ITEM : out INTEGER) do
                  ITEM := KEPT (FIRST);
               end GET;
               FIRST := NEXT (PLACE => FIRST);
               COUNT := COUNT - 1;
         or
            terminate;
         end select;
      end loop;
   end STORE;
begin
   for I in STORES'RANGE loop
      ALL_STORES (I).PUT (I);
   end loop;
   TEXT_IO.PUT_LINE (BOOLEAN'IMAGE (ALL_STORES (1)'TERMINATED));
end BUFFER;
";

/// A program of task types, families and subprograms.
#[test]
fn resolves_a_bounded_buffer(rt: HostRuntime) {
    assert_resolved(&rt, BUFFER);
}

/// What is resolved is whole, and isn't of a tree with fewer nodes.
#[test]
fn tells_what_is_not_whole(rt: HostRuntime) -> Result<(), Fail> {
    let resolved = names(rt.alloc(), BUFFER)?;
    let tree = read(rt.alloc(), BUFFER)?;
    assert!(rt; resolved.is_whole(&tree));
    let other = read(rt.alloc(), b"procedure P is begin null; end P;")?;
    assert!(rt; !resolved.is_whole(&other));
    Ok(())
}
