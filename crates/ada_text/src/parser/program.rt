//! Reading a whole text: a main procedure after its context clause (10.1).

ghost use Rattle.std.specs.Prelude.{◌<◌, ◌≤◌, OnOk};

use super::{DEEPEST, Parser};
use crate::fault::{Cause, Trouble, Wanted};
use crate::kind::Kind;
use crate::tree::expression::Identifier;
use crate::tree::{ContextClause, Tree};

impl<'a> Parser<'a> {
    /// Whether a name is that of the package TEXT_IO (14.3).
    fn is_text_io(&self, name: Identifier) -> bool {
        self.spelling(name).eq_ignore_ascii_case(b"TEXT_IO")
    }

    /// Takes the name TEXT_IO and a semicolon, after `with` or `use`.
    fn text_io(&mut self, otherwise: Cause) -> Result<(), Trouble>
        ensures { OnOk result (self.new < self.old) }
    {
        let name = self.identifier()?;
        if !self.is_text_io(name) {
            return Err(Trouble {
                at: name.at,
                cause: otherwise,
            });
        }
        if self.kind() == Kind::Comma {
            return Err(self.refused(otherwise));
        }
        self.semicolon()
    }

    /// Reads the context clause (10.1.1). A use clause stands after the with clause of its package.
    fn context_clause(&mut self) -> Result<ContextClause, Trouble>
        ensures { OnOk result (self.new ≤ self.old) }
    {
        let mut context = ContextClause {
            has_with: false,
            has_use: false,
        };
        'clauses: loop {
            if self.accept(Kind::With) {
                self.text_io(Cause::ContextClauses)?;
                context.has_with = true;
            } else if context.has_with && self.accept(Kind::Use) {
                self.text_io(Cause::UseClauses)?;
                context.has_use = true;
            } else if self.kind() == Kind::Use {
                return Err(self.refused(Cause::UseWithoutWith));
            } else if self.kind() == Kind::Pragma {
                self.pragma()?;
            } else {
                return Ok(context);
            }
        }
    }

    /// Takes `procedure` and the name of the main program, up to `is`.
    fn main_head(&mut self) -> Result<Identifier, Trouble>
        ensures { OnOk result (self.new ≤ self.old) }
    {
        match self.kind() {
            Kind::Package => return Err(self.refused(Cause::Packages)),
            Kind::Generic => return Err(self.refused(Cause::Generics)),
            Kind::Separate => return Err(self.refused(Cause::Separate)),
            _ => self.expect(Kind::Procedure)?,
        };
        let name = self.identifier()?;
        self.expect(Kind::Is)?;
        Ok(name)
    }

    /// Reads the whole text.
    pub fn program(mut self) -> Result<Tree, Trouble> {
        let context = self.context_clause()?;
        let name = self.main_head()?;
        let body = self.body(DEEPEST)?;
        self.optional_name(name)?;
        self.semicolon()?;
        self.pragmas()?;
        if self.kind() != Kind::EndOfText {
            return Err(self.unexpected(Wanted::Word(Kind::EndOfText)));
        }
        Ok(Tree {
            context,
            name,
            body,
            nodes: self.nodes,
        })
    }
}
