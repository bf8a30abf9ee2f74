//! Checking types step by step, in the order of the text.

mod aggregates;
mod applied;
mod attributes;
mod calls;
mod cases;
mod declarations;
mod expressions;
mod literals;
mod nodes;
mod objects;
mod operands;
mod operators;
mod ranges;
mod selected;
mod settling;
mod statements;
mod subprograms;
mod tasks;
mod transfers;
mod units;

use crate::call_graph::CallGraph;
use crate::typed::Typed;
use crate::types::{INTEGER_RANGE, TypeForm, TypeId};
use crate::unit::{Enclosing, Unit};
use ada_names::Resolved;
use ada_text::tree::{BodyId, DeclarationForm, DeclarationId, ExpressionId, StatementId};
use ada_text::{Cause, Tree, Trouble};
use std::alloc::{AllocError, Global};

/// More steps than a tree has that was read: each node is come to once, and each asks for a few.
const MOST_STEPS: u32 = 1 << 24;

/// What is still to be done.
#[derive(Clone, Copy)]
enum Step {
    /// Declarations, statements and handlers of a body.
    Body(BodyId),
    /// The expressions in a declaration.
    Declaration(DeclarationId),
    /// A declaration whose expressions are typed.
    Declared(DeclarationId),
    /// A unit begins.
    Enter(Unit),
    /// A function begins, of whose result this is the mark.
    Function(DeclarationId, ExpressionId),
    /// The innermost unit ends.
    Leave,
    /// The expressions and statements in a statement.
    Statement(StatementId),
    /// A statement whose expressions are typed, but for those in its statements.
    Stated(StatementId),
    /// A condition that is typed (5.3).
    Condition(ExpressionId),
    /// The call of a conditional or timed entry call, which is typed (9.7.2, 9.7.3).
    EntryCall(StatementId),
    /// The parts of an expression.
    Expression(ExpressionId),
    /// An expression whose parts are typed.
    Composed(ExpressionId),
    /// An expression that was typed is of this type.
    Settled(ExpressionId, TypeId),
    /// The components of an aggregate of this type.
    Components(ExpressionId, TypeId),
}

/// What is known so far, and what is still to be done.
#[derive(Drop)]
pub struct Checker<'a> {
    alloc: Global,
    text: &'a [u8],
    tree: &'a Tree,
    resolved: &'a Resolved,
    /// Of each body the first declaration of its task or subprogram.
    owners: Vec<Option<DeclarationId>>,
    /// The units around the place, the innermost last.
    units: Vec<Enclosing>,
    call_graph: CallGraph,
    /// The index range of the array type without a name that was declared last, and that type.
    unnamed: Option<(ExpressionId, TypeId)>,
    /// Which expressions were come to: objects that are declared together share theirs (3.2).
    visited: Vec<bool>,
    /// The steps that are left, the next one last.
    agenda: Vec<Step>,
    /// The steps that the present one asks for, in their order.
    asked: Vec<Step>,
    typed: Typed,
}

/// What is wrong at the byte with an index.
fn trouble(at: u32, cause: Cause) -> Trouble {
    Trouble { at, cause }
}

/// A node that isn't there.
fn broken() -> Trouble {
    trouble(0, Cause::BrokenTree)
}

/// The types of the language, in the order of their numbers.
const PREDEFINED: [TypeForm; 6] = [
    TypeForm::Integer(INTEGER_RANGE),
    TypeForm::Enumeration {
        owner: None,
        count: 2,
    },
    TypeForm::Character,
    TypeForm::Universal,
    TypeForm::Duration,
    TypeForm::Text,
];

/// Nothing of a tree is typed.
fn untyped(alloc: Global, tree: &Tree) -> Result<Typed, AllocError> {
    let nodes = &tree.nodes;
    Ok(Typed {
        types: PREDEFINED.to_vec(alloc)?,
        expressions: vec![in alloc; None; nodes.expressions.len()]?,
        declarations: vec![in alloc; None; nodes.declarations.len()]?,
    })
}

/// Whether a declaration declares what a body belongs to.
fn has_own_body(form: &DeclarationForm) -> bool {
    matches!(
        form,
        DeclarationForm::Subprogram { .. } | DeclarationForm::Task { .. }
    )
}

/// Of each body the first declaration of its task or subprogram.
fn owners(
    alloc: Global,
    tree: &Tree,
    resolved: &Resolved,
) -> Result<Vec<Option<DeclarationId>>, AllocError> {
    let mut owners = vec![in alloc; None; tree.nodes.bodies.len()]?;
    let declarations = tree.nodes.declarations.iter().zip(&resolved.bodies);
    for (index, (node, body)) in declarations.enumerate() {
        if let (Some(body), Ok(index)) = (body, u32::try_from(index)) {
            if let Some(owner) = owners.get_mut(body.0 as usize) {
                if owner.is_none() && has_own_body(&node.form) {
                    *owner = Some(DeclarationId(index));
                }
            }
        }
    }
    Ok(owners)
}

impl<'a> Checker<'a> {
    /// A checker of this tree, whose names were resolved.
    pub fn new(
        alloc: Global,
        text: &'a [u8],
        tree: &'a Tree,
        resolved: &'a Resolved,
    ) -> Result<Self, AllocError> {
        Ok(Checker {
            alloc,
            text,
            tree,
            resolved,
            owners: owners(alloc, tree, resolved)?,
            units: Vec::new(alloc),
            call_graph: CallGraph::new(alloc, tree.nodes.declarations.len())?,
            unnamed: None,
            visited: vec![in alloc; false; tree.nodes.expressions.len()]?,
            agenda: Vec::new(alloc),
            asked: Vec::new(alloc),
            typed: untyped(alloc, tree)?,
        })
    }

    /// Asks for a step after those that were asked for.
    fn ask(&mut self, step: Step) -> Result<(), Trouble> {
        self.asked.push(step)?;
        Ok(())
    }

    /// Puts the steps that were asked for before all others.
    fn schedule(&mut self) -> Result<(), Trouble> {
        while let Some(step) = self.asked.pop() {
            self.agenda.push(step)?;
        }
        Ok(())
    }

    /// Does a step.
    fn take(&mut self, step: Step) -> Result<(), Trouble> {
        match step {
            Step::Body(id) => self.body(id),
            Step::Declaration(id) => self.declaration(id),
            Step::Declared(id) => self.declared(id),
            Step::Enter(unit) => self.enter(unit),
            Step::Function(id, mark) => self.enter_function(id, mark),
            Step::Leave => self.leave(),
            Step::Statement(id) => self.statement(id),
            Step::Stated(id) => self.stated(id),
            Step::Condition(id) => self.condition(id),
            Step::EntryCall(id) => self.check_entry_call(id),
            Step::Expression(id) => self.expression(id),
            Step::Composed(id) => self.composed(id),
            Step::Settled(id, base) => self.settle(id, base),
            Step::Components(id, base) => self.components(id, base),
        }
    }

    /// Does what is left to be done.
    fn run(&mut self) -> Result<(), Trouble> {
        for _ in 0..MOST_STEPS {
            self.schedule()?;
            let Some(step) = self.agenda.pop() else {
                return Ok(());
            };
            self.take(step)?;
        }
        Err(broken())
    }

    /// Checks the types of the whole tree, and that no subprogram calls itself.
    pub fn check(mut self) -> Result<Typed, Trouble> {
        let body = self.tree.body;
        self.ask(Step::Enter(Unit::Main))?;
        self.ask(Step::Body(body))?;
        self.ask(Step::Leave)?;
        self.run()?;
        self.call_graph.check()?;
        Ok(self.typed)
    }
}
