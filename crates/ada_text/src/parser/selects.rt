//! Reading select statements (9.7), and which alternatives may stand together.

ghost use Rattle.std.specs.Prelude.{◌≡◌, ◌<◌, ◌≤◌, OnOk};

use super::{DEEPEST, Parser};
use crate::fault::{Cause, Trouble, Wanted};
use crate::kind::Kind;
use crate::tree::Nodes;
use crate::tree::expression::ExpressionId;
use crate::tree::statement::{StatementForm, StatementId};
use crate::tree::task::{Select, SelectAlternative};

/// What an alternative of a select statement waits for.
#[derive(Clone, Copy, PartialEq, Eq)]
enum Event {
    Accept,
    Delay,
    Terminate,
    Call,
}

/// What an alternative waits for.
fn event_of(nodes: &Nodes, alternative: &SelectAlternative) -> Event {
    match nodes.statements.get(alternative.event.0 as usize) {
        Some(statement) => match statement.form {
            StatementForm::Accept(_) => Event::Accept,
            StatementForm::Delay(_) => Event::Delay,
            StatementForm::Terminate => Event::Terminate,
            _ => Event::Call,
        },
        None => Event::Call,
    }
}

/// How many alternatives wait for such an event.
fn count_of(nodes: &Nodes, alternatives: &[SelectAlternative], event: Event) -> usize {
    alternatives
        .iter()
        .filter(|alternative| event_of(nodes, alternative) == event)
        .count()
}

/// Whether statements stand after a terminate alternative.
fn goes_on_after_terminate(nodes: &Nodes, alternatives: &[SelectAlternative]) -> bool {
    alternatives.iter().any(|alternative| {
        !alternative.statements.is_empty() && event_of(nodes, alternative) == Event::Terminate
    })
}

/// What is wrong with the alternatives of a selective wait (9.7.1).
fn selective_wait(
    nodes: &Nodes,
    alternatives: &[SelectAlternative],
    has_else: bool,
) -> Option<Cause> {
    let terminates = count_of(nodes, alternatives, Event::Terminate);
    let has_delay = count_of(nodes, alternatives, Event::Delay) > 0;
    if count_of(nodes, alternatives, Event::Accept) == 0 {
        return Some(Cause::NoAcceptAlternative);
    }
    let both = (terminates > 0 || has_delay) && has_else || terminates > 0 && has_delay;
    if both || terminates > 1 || goes_on_after_terminate(nodes, alternatives) {
        return Some(Cause::ExclusiveAlternatives);
    }
    None
}

/// What is wrong with a conditional (9.7.2) or a timed entry call (9.7.3).
fn entry_call(nodes: &Nodes, alternatives: &[SelectAlternative], has_else: bool) -> Option<Cause> {
    match alternatives {
        [call] if has_else && call.guard.is_none() => None,
        [call, delay]
            if !has_else
                && call.guard.is_none()
                && delay.guard.is_none()
                && event_of(nodes, call) == Event::Call
                && event_of(nodes, delay) == Event::Delay => { None }
        _ => Some(Cause::CallAlternatives),
    }
}

impl<'a> Parser<'a> {
    /// Reads the guard of an alternative, if it has one (9.7.1).
    pub fn guard(&mut self) -> Result<Option<ExpressionId>, Trouble>
        ensures { OnOk result (self.new ≤ self.old) }
    {
        self.pragmas()?;
        if !self.accept(Kind::When) {
            return Ok(None);
        }
        let condition = self.expression(DEEPEST)?;
        self.expect(Kind::Arrow)?;
        Ok(Some(condition))
    }

    /// Reads what an alternative waits for, but an accept statement: a delay, `terminate` or an entry call (9.7).
    pub fn event(&mut self, at: u32) -> Result<StatementId, Trouble>
        ensures { OnOk result (self.new < self.old) }
    {
        let form = self.event_form()?;
        self.semicolon()?;
        self.statement_node(at, form)
    }

    /// Reads a delay, `terminate` or an entry call, up to its semicolon (9.7).
    fn event_form(&mut self) -> Result<StatementForm, Trouble>
        ensures { OnOk result (self.new ≤ self.old) }
    {
        if self.accept(Kind::Terminate) {
            return Ok(StatementForm::Terminate);
        }
        if self.accept(Kind::Delay) {
            return Ok(StatementForm::Delay(self.simple_expression(DEEPEST)?));
        }
        if self.kind() != Kind::Identifier {
            return Err(self.unexpected(Wanted::Alternative));
        }
        Ok(StatementForm::Call(self.target()?))
    }

    /// Adds a select statement (9.7), if its alternatives may stand together.
    pub fn select_node(
        &mut self,
        at: u32,
        alternatives: Vec<SelectAlternative>,
        otherwise: Option<Vec<StatementId>>,
    ) -> Result<StatementId, Trouble>
        ensures { self.new ≡ self.old }
    {
        self.check_alternatives(at, &alternatives, otherwise.is_some())?;
        self.statement_node(
            at,
            StatementForm::Select(Select {
                alternatives,
                otherwise,
            }),
        )
    }

    /// The alternatives of the select statement that begins here may stand together (9.7.1 to 9.7.3).
    fn check_alternatives(
        &self,
        at: u32,
        alternatives: &[SelectAlternative],
        has_else: bool,
    ) -> Result<(), Trouble> {
        let cause = if count_of(&self.nodes, alternatives, Event::Call) == 0 {
            selective_wait(&self.nodes, alternatives, has_else)
        } else {
            entry_call(&self.nodes, alternatives, has_else)
        };
        match cause {
            Some(cause) => Err(Trouble { at, cause }),
            None => Ok(()),
        }
    }
}
