//! Resolving names step by step, in the order of the text.

mod accepts;
mod completions;
mod declarations;
mod expressions;
mod handlers;
mod labels;
mod lookup;
mod nodes;
mod selectors;
mod statements;
mod transfers;

use crate::construct::{Construct, Enclosing};
use crate::meaning::{Literal, Meaning};
use crate::predefined::{OF_STANDARD, OF_TEXT_IO, TEXT_IO};
use crate::resolved::{Home, Resolved};
use crate::scopes::Scopes;
use crate::symbols::{Symbol, Symbols};
use ada_text::tree::{Alternative, BodyId, DeclarationId, ExpressionId, StatementId};
use ada_text::{Cause, Tree, Trouble};
use std::alloc::{AllocError, Global};

/// More steps than a tree has that was read: each node is come to once, and each asks for a few.
const MOST_STEPS: u32 = 1 << 24;

/// What is still to be done.
#[derive(Clone, Copy)]
enum Step<'a> {
    /// Declarations, statements and handlers of a body.
    Body(BodyId),
    /// The names in a declaration.
    Declaration(DeclarationId),
    /// A declaration is over, and its name visible from here on.
    Visible(DeclarationId),
    /// The declarations of a body are over, so each has its own body that wants one.
    Completions(BodyId),
    /// The names of loops and blocks in a statement, which its body declares (5.1).
    Labels(StatementId),
    Statement(StatementId),
    Expression(ExpressionId),
    /// The selector of an expression whose prefix is resolved.
    Selector(ExpressionId),
    /// An expression that was resolved denotes an exception.
    Exception(ExpressionId),
    /// The choices of handlers that were resolved differ.
    Choices(&'a [Alternative]),
    /// A construct begins, with the body that has its declarations.
    Open(Construct, Option<BodyId>),
    /// The innermost construct ends.
    Close,
}

/// What was resolved so far, what is visible, and what is still to be done.
#[derive(Drop)]
pub struct Resolver<'a> {
    alloc: Global,
    text: &'a [u8],
    tree: &'a Tree,
    symbols: Symbols,
    scopes: Scopes,
    /// The constructs around the place, the innermost last.
    enclosing: Vec<Enclosing>,
    /// The name whose declaration isn't over, so that it isn't visible (8.3).
    declaring: Option<Symbol>,
    /// Which expressions were come to: objects that are declared together share theirs (3.2).
    visited: Vec<bool>,
    /// The steps that are left, the next one last.
    agenda: Vec<Step<'a>>,
    /// The steps that the present one asks for, in their order.
    asked: Vec<Step<'a>>,
    resolved: Resolved,
}

/// What is wrong at the byte with an index.
fn trouble(at: u32, cause: Cause) -> Trouble {
    Trouble { at, cause }
}

/// A node that isn't there.
fn broken() -> Trouble {
    trouble(0, Cause::BrokenTree)
}

/// Nothing of a tree is resolved.
fn unresolved(alloc: Global, tree: &Tree) -> Result<Resolved, AllocError> {
    let nodes = &tree.nodes;
    let home = Home {
        body: tree.body,
        level: 0,
    };
    Ok(Resolved {
        expressions: vec![in alloc; None; nodes.expressions.len()]?,
        statements: vec![in alloc; None; nodes.statements.len()]?,
        homes: vec![in alloc; home; nodes.declarations.len()]?,
        bodies: vec![in alloc; None; nodes.declarations.len()]?,
        literals: Vec::new(alloc),
    })
}

impl<'a> Resolver<'a> {
    /// A resolver of the names of this tree.
    pub fn new(alloc: Global, text: &'a [u8], tree: &'a Tree) -> Result<Self, AllocError> {
        Ok(Resolver {
            alloc,
            text,
            tree,
            symbols: Symbols::new(alloc),
            scopes: Scopes::new(alloc),
            enclosing: Vec::new(alloc),
            declaring: None,
            visited: vec![in alloc; false; tree.nodes.expressions.len()]?,
            agenda: Vec::new(alloc),
            asked: Vec::new(alloc),
            resolved: unresolved(alloc, tree)?,
        })
    }

    /// Asks for a step after those that were asked for.
    fn ask(&mut self, step: Step<'a>) -> Result<(), Trouble> {
        self.asked.push(step)?;
        Ok(())
    }

    /// Puts the steps that were asked for before all others.
    fn schedule(&mut self) -> Result<(), Trouble> {
        while let Some(step) = self.asked.pop() {
            self.agenda.push(step)?;
        }
        Ok(())
    }

    /// Does a step.
    fn take(&mut self, step: Step<'a>) -> Result<(), Trouble> {
        match step {
            Step::Body(id) => self.body(id),
            Step::Declaration(id) => self.declaration(id),
            Step::Visible(id) => self.make_visible(id),
            Step::Completions(id) => self.check_completions(id),
            Step::Labels(id) => self.label(id),
            Step::Statement(id) => self.statement(id),
            Step::Expression(id) => self.expression(id),
            Step::Selector(id) => self.selector(id),
            Step::Exception(id) => self.check_exception(id),
            Step::Choices(handlers) => self.check_choices(handlers),
            Step::Open(construct, body) => self.open(construct, body),
            Step::Close => self.close(),
        }
    }

    /// Does what is left to be done.
    fn run(&mut self) -> Result<(), Trouble> {
        for _ in 0..MOST_STEPS {
            self.schedule()?;
            let Some(step) = self.agenda.pop() else {
                return Ok(());
            };
            self.take(step)?;
        }
        Err(broken())
    }

    /// Declares what is predefined under such names.
    fn declare_predefined(&mut self, names: &[(&'static [u8], Meaning)]) -> Result<(), Trouble> {
        for (name, meaning) in names {
            let symbol = self.symbols.symbol(name)?;
            self.scopes.declare(symbol, *meaning)?;
        }
        Ok(())
    }

    /// Declares FALSE and TRUE, and the names of STANDARD (annex C).
    fn declare_standard(&mut self) -> Result<(), Trouble> {
        for position in 0..2 {
            self.resolved.literals.push(Literal {
                owner: None,
                position,
                overloaded: None,
            })?;
        }
        self.declare_predefined(&OF_STANDARD)
    }

    /// Declares what the context clause names (10.1.1, 14.3).
    fn declare_text_io(&mut self) -> Result<(), Trouble> {
        if self.tree.context.has_with {
            self.declare_predefined(&[TEXT_IO])?;
        }
        if self.tree.context.has_use {
            self.declare_predefined(&OF_TEXT_IO)?;
        }
        Ok(())
    }

    /// Resolves the names of the whole tree.
    pub fn resolve(mut self) -> Result<Resolved, Trouble> {
        self.declare_standard()?;
        self.declare_text_io()?;
        let tree = self.tree;
        let main = self.symbol(tree.name)?;
        self.scopes.declare(main, Meaning::Main)?;
        self.unit(Construct::Main, tree.body)?;
        self.run()?;
        Ok(self.resolved)
    }

    /// Asks for a construct with its body.
    fn unit(&mut self, construct: Construct, body: BodyId) -> Result<(), Trouble> {
        self.ask(Step::Open(construct, Some(body)))?;
        self.ask(Step::Body(body))?;
        self.ask(Step::Close)
    }
}
