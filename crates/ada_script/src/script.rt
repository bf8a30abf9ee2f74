//! Scripts that were read.

ghost use Rattle.std.specs.Prelude.{◌≡◌, IfOk, IsOkUnless};

use crate::{Cause, Names, Statement};
use std::marker::Model;
use std::mem::size_of;

/// A line of a script that isn't skipped: its number, from 1, and what it says.
#[derive(Debug, Drop, PartialEq, Eq)]
pub struct Line {
    pub line: u32,
    pub statement: Statement,
}

// What a script costs is its lines' size: each is filled and moved whole.
const _: () = prove!(size_of::<Line>() <= 128);

/// A script: its lines that aren't skipped, in their order. Contracts see it as the list of them.
#[derive(Drop)]
pub struct Script {
    lines: Vec<Line>,
    /// The names that the lines declare.
    names: Names,
}

impl Model for Script {
    ghost use Rattle.std.specs.Prelude.{List};
    ghost use Rattle.ada_script.specs.declared.script.Line.{Line};

    ghost Value = { List Line };

    ghost view = { λ s. s.lines.items };

    ghost use Rattle.std.specs.Prelude.{◌≡◌};
    ghost use Rattle.ada_script.specs.Script.{scope_of};

    ghost invariant = { λ s. s.names ≡ scope_of s.lines.items };
}

impl Script {
    ghost use Rattle.ada_script.specs.Script.{scope_of};

    /// The script of these lines and of the names that they declare.
    pub(crate) fn new(lines: Vec<Line>, names: Names) -> Self
        requires { names ≡ scope_of lines.items }
        ensures { result ≡ lines.items }
    {
        Script { lines, names }
    }

    /// The lines in their order.
    pub fn lines(&self) -> &[Line]
        ensures { result.now ≡ self.now }
    {
        &self.lines
    }

    /// The names that the script declares, of which the main program's alone is bound.
    pub fn names(&self) -> Result<Names, Cause>
        ensures names { IfOk result (λ names. names ≡ scope_of self.now) }
        ensures memory { IsOkUnless result Cause.OutOfMemory }
    {
        let mut names = self.names.copy()?;
        names.make_room()?;
        Ok(names)
    }

    /// The lines in their order, and the names that they declare, of which the main program's alone is
    /// bound.
    pub fn into_parts(self) -> Result<(Vec<Line>, Names), Cause>
        ensures lines { IfOk result (λ parts. parts.0.items ≡ self) }
        ensures names { IfOk result (λ parts. parts.1 ≡ scope_of self) }
        ensures memory { IsOkUnless result Cause.OutOfMemory }
    {
        let Script { lines, mut names } = self;
        names.make_room()?;
        Ok((lines, names))
    }
}
