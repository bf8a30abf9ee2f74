//! Whether what the nodes of a tree name is there.

ghost use Rattle.std.specs.Prelude.{◌≡◌, true};
ghost use Rattle.std.specs.Option.{option_map_or};
ghost use Rattle.std.specs.List.{list_all};
ghost use Rattle.ada_text.specs.Trees as trees;

use super::declaration::{Declaration, DeclarationForm, DeclarationId, Parameter, TypeDefinition};
use super::expression::{Association, Expression, ExpressionForm, ExpressionId, Identifier};
use super::statement::{
    Alternative, Arm, Body, BodyId, Iteration, Statement, StatementForm, StatementId,
};
use super::task::{Accept, Entry, Select, SelectAlternative};

/// How many nodes of each kind a tree has, and how many bytes its text.
#[derive(Clone, Copy)]
pub struct Reach {
    pub expressions: usize,
    pub statements: usize,
    pub declarations: usize,
    pub bodies: usize,
    pub bytes: usize,
}

impl Reach {
    /// Whether there is such an expression.
    fn has_expression(&self, id: ExpressionId) -> bool
        ensures { result ≡ trees.has_expression self.now id }
    {
        (id.0 as usize) < self.expressions
    }

    /// Whether there is such a statement.
    fn has_statement(&self, id: StatementId) -> bool
        ensures { result ≡ trees.has_statement self.now id }
    {
        (id.0 as usize) < self.statements
    }

    /// Whether there is such a declaration.
    fn has_declaration(&self, id: DeclarationId) -> bool
        ensures { result ≡ trees.has_declaration self.now id }
    {
        (id.0 as usize) < self.declarations
    }

    /// Whether there is such a body.
    pub fn has_body(&self, id: BodyId) -> bool
        ensures { result ≡ trees.has_body self.now id }
    {
        (id.0 as usize) < self.bodies
    }

    /// Whether an identifier lies within the text.
    pub fn has_identifier(&self, name: Identifier) -> bool
        ensures { result ≡ trees.has_identifier self.now name }
    {
        name.at < name.end && name.end as usize <= self.bytes
    }

    /// Whether there are such expressions.
    fn has_expressions(&self, ids: &[ExpressionId]) -> bool
        ensures { result ≡ trees.has_expressions self.now ids.now }
    {
        ids.iter().all(|id| self.has_expression(*id))
    }

    /// Whether there are such statements.
    fn has_statements(&self, ids: &[StatementId]) -> bool
        ensures { result ≡ trees.has_statements self.now ids.now }
    {
        ids.iter().all(|id| self.has_statement(*id))
    }

    /// Whether there is such an expression, if one is named.
    fn has_any_expression(&self, id: Option<ExpressionId>) -> bool
        ensures { result ≡ trees.has_any_expression self.now id }
    {
        match id {
            Some(id) => self.has_expression(id),
            None => true,
        }
    }

    /// Whether an identifier lies within the text, if there is one.
    fn has_any_identifier(&self, name: Option<Identifier>) -> bool
        ensures { result ≡ trees.has_any_identifier self.now name }
    {
        match name {
            Some(name) => self.has_identifier(name),
            None => true,
        }
    }

    /// Whether there is what an association names.
    fn has_association(&self, part: &Association) -> bool
        ensures { result ≡ trees.has_association self.now part.now }
    {
        self.has_expressions(&part.choices) && self.has_expression(part.value)
    }

    /// Whether there is what associations name.
    fn has_associations(&self, parts: &[Association]) -> bool
        ensures { result ≡ list_all (trees.has_association self.now) parts.now }
    {
        parts.iter().all(|part| self.has_association(part))
    }

    /// Whether there is what an expression names.
    fn has_parts(&self, form: &ExpressionForm) -> bool
        ensures { result ≡ trees.has_parts self.now form.now }
    {
        match form {
            ExpressionForm::Text(name) | ExpressionForm::Name(name) => self.has_identifier(*name),
            ExpressionForm::Selected { prefix, selector } => {
                self.has_expression(*prefix) && self.has_identifier(*selector)
            }
            ExpressionForm::Applied { prefix, arguments } => {
                self.has_expression(*prefix) && self.has_associations(arguments)
            }
            ExpressionForm::Attribute { prefix, .. } => self.has_expression(*prefix),
            ExpressionForm::Qualified { mark, operand } => {
                self.has_expression(*mark) && self.has_expression(*operand)
            }
            ExpressionForm::Aggregate(components) => self.has_associations(components),
            ExpressionForm::Range { low, high } => {
                self.has_expression(*low) && self.has_expression(*high)
            }
            ExpressionForm::Constrained { mark, range } => {
                self.has_expression(*mark) && self.has_expression(*range)
            }
            ExpressionForm::Unary { operand, .. } => self.has_expression(*operand),
            ExpressionForm::Binary { left, right, .. } => {
                self.has_expression(*left) && self.has_expression(*right)
            }
            ExpressionForm::Integer(_)
            | ExpressionForm::Real(_)
            | ExpressionForm::Character(_)
            | ExpressionForm::Others => true,
        }
    }

    /// Whether an expression stands in the text, and there is what it names.
    fn is_expression_whole(&self, node: &Expression) -> bool
        ensures { result ≡ trees.is_expression_whole self.now node.now }
    {
        node.at as usize <= self.bytes && self.has_parts(&node.form)
    }

    /// What an expression after so many others may name.
    fn after(&self, expressions: usize) -> Reach
        ensures { result ≡ record self.now { expressions = expressions } }
    {
        Reach {
            expressions,
            statements: self.statements,
            declarations: self.declarations,
            bodies: self.bodies,
            bytes: self.bytes,
        }
    }

    /// Whether expressions stand in the text, and name only earlier ones.
    pub fn are_in_order(&self, nodes: &[Expression]) -> bool
        ensures { result ≡ trees.are_in_order self.now nodes.now }
    {
        let mut count = 0;
        for node in nodes {
            if self.after(count).is_expression_whole(node) {
                count += 1;
            }
        }
        count == nodes.len()
    }

    /// Whether there is what a parameter names.
    fn has_parameter(&self, parameter: &Parameter) -> bool
        ensures { result ≡ trees.has_parameter self.now parameter.now }
    {
        self.has_identifier(parameter.name) && self.has_expression(parameter.subtype)
    }

    /// Whether there is what parameters name.
    fn has_parameters(&self, parameters: &[Parameter]) -> bool
        ensures { result ≡ trees.has_parameters self.now parameters.now }
    {
        parameters
            .iter()
            .all(|parameter| self.has_parameter(parameter))
    }

    /// Whether there is what an entry names.
    fn has_entry(&self, entry: &Entry) -> bool
        ensures { result ≡ trees.has_entry self.now entry.now }
    {
        self.has_identifier(entry.name)
            && self.has_any_expression(entry.range)
            && self.has_parameters(&entry.parameters)
    }

    /// Whether there is what entries name.
    fn has_entries(&self, entries: &[Entry]) -> bool
        ensures { result ≡ list_all (trees.has_entry self.now) entries.now }
    {
        entries.iter().all(|entry| self.has_entry(entry))
    }

    /// Whether identifiers lie within the text.
    pub fn has_identifiers(&self, names: &[Identifier]) -> bool
        ensures { result ≡ list_all (trees.has_identifier self.now) names.now }
    {
        names.iter().all(|name| self.has_identifier(*name))
    }

    /// Whether there is what a type names.
    fn has_definition(&self, definition: &TypeDefinition) -> bool
        ensures { result ≡ trees.has_definition self.now definition.now }
    {
        match definition {
            TypeDefinition::Named(mark) => self.has_expression(*mark),
            TypeDefinition::Enumeration(literals) => self.has_identifiers(literals),
            TypeDefinition::Integer(range) => self.has_expression(*range),
            TypeDefinition::Array { index, component } => {
                self.has_expression(*index) && self.has_expression(*component)
            }
        }
    }

    /// Whether there is such a body, if one is named.
    fn has_any_body(&self, id: Option<BodyId>) -> bool
        ensures { result ≡ option_map_or (trees.has_body self.now) id true }
    {
        match id {
            Some(id) => self.has_body(id),
            None => true,
        }
    }

    /// Whether there is what a declaration names.
    fn declares(&self, form: &DeclarationForm) -> bool
        ensures { result ≡ trees.declares self.now form.now }
    {
        match form {
            DeclarationForm::Object {
                definition,
                value,
                ..
            } => self.has_definition(definition) && self.has_any_expression(*value),
            DeclarationForm::Type(definition) => self.has_definition(definition),
            DeclarationForm::Subtype(mark) => self.has_expression(*mark),
            DeclarationForm::Subprogram {
                parameters,
                result: outcome,
                body,
            } => {
                self.has_parameters(parameters)
                    && self.has_any_expression(*outcome)
                    && self.has_any_body(*body)
            }
            DeclarationForm::Task { entries, .. } => self.has_entries(entries),
            DeclarationForm::TaskBody(body) => self.has_body(*body),
            DeclarationForm::Exception => true,
        }
    }

    /// Whether a declaration's name stands in the text, and there is what it names.
    fn is_declaration_whole(&self, node: &Declaration) -> bool
        ensures { result ≡ trees.is_declaration_whole self.now node.now }
    {
        self.has_identifier(node.name) && self.declares(&node.form)
    }

    /// Whether that holds of declarations.
    pub fn are_declarations_whole(&self, nodes: &[Declaration]) -> bool
        ensures { result ≡ list_all (trees.is_declaration_whole self.now) nodes.now }
    {
        nodes.iter().all(|node| self.is_declaration_whole(node))
    }

    /// Whether there is what an alternative of a case statement or a handler names.
    fn has_alternative(&self, part: &Alternative) -> bool
        ensures { result ≡ trees.has_alternative self.now part.now }
    {
        self.has_expressions(&part.choices) && self.has_statements(&part.statements)
    }

    /// Whether there is what alternatives or handlers name.
    fn has_alternatives(&self, parts: &[Alternative]) -> bool
        ensures { result ≡ list_all (trees.has_alternative self.now) parts.now }
    {
        parts.iter().all(|part| self.has_alternative(part))
    }

    /// Whether there is what a condition and its statements name.
    fn has_arm(&self, arm: &Arm) -> bool
        ensures { result ≡ trees.has_arm self.now arm.now }
    {
        self.has_expression(arm.condition) && self.has_statements(&arm.statements)
    }

    /// Whether there is what the conditions of an if statement and their statements name.
    fn has_arms(&self, arms: &[Arm]) -> bool
        ensures { result ≡ list_all (trees.has_arm self.now) arms.now }
    {
        arms.iter().all(|arm| self.has_arm(arm))
    }

    /// Whether there is what an iteration scheme names.
    fn has_iteration(&self, iteration: &Iteration) -> bool
        ensures { result ≡ trees.has_iteration self.now iteration.now }
    {
        match iteration {
            Iteration::While(condition) => self.has_expression(*condition),
            Iteration::For {
                parameter,
                range,
                ..
            } => self.has_identifier(*parameter) && self.has_expression(*range),
            Iteration::Endless => true,
        }
    }

    /// Whether there is what an accept statement names.
    fn has_accept(&self, accept: &Accept) -> bool
        ensures { result ≡ trees.has_accept self.now accept.now }
    {
        self.has_identifier(accept.entry)
            && self.has_any_expression(accept.index)
            && self.has_parameters(&accept.parameters)
            && self.has_statements(&accept.statements)
    }

    /// Whether there is what an alternative of a select statement names.
    fn has_select_alternative(&self, part: &SelectAlternative) -> bool
        ensures { result ≡ trees.has_select_alternative self.now part.now }
    {
        self.has_any_expression(part.guard)
            && self.has_statement(part.event)
            && self.has_statements(&part.statements)
    }

    /// Whether there is what the alternatives of a select statement name.
    fn has_select_alternatives(&self, parts: &[SelectAlternative]) -> bool
        ensures { result ≡ list_all (trees.has_select_alternative self.now) parts.now }
    {
        parts.iter().all(|part| self.has_select_alternative(part))
    }

    /// Whether there are the statements of an else part, if there is one.
    fn has_otherwise(&self, otherwise: &Option<Vec<StatementId>>) -> bool
        ensures { result ≡ trees.has_otherwise self.now otherwise.now }
    {
        match otherwise {
            Some(statements) => self.has_statements(statements),
            None => true,
        }
    }

    /// Whether there is what a select statement names.
    fn has_select(&self, select: &Select) -> bool
        ensures { result ≡ trees.has_select self.now select.now }
    {
        self.has_select_alternatives(&select.alternatives) && self.has_otherwise(&select.otherwise)
    }

    /// Whether there is what a statement names.
    fn does(&self, form: &StatementForm) -> bool
        ensures { result ≡ trees.does self.now form.now }
    {
        match form {
            StatementForm::Assignment { target, value } => {
                self.has_expression(*target) && self.has_expression(*value)
            }
            StatementForm::Call(call) => self.has_expression(*call),
            StatementForm::If { arms, otherwise } => {
                self.has_arms(arms) && self.has_statements(otherwise)
            }
            StatementForm::Case {
                selector,
                alternatives,
            } => self.has_expression(*selector) && self.has_alternatives(alternatives),
            StatementForm::Loop {
                name,
                iteration,
                statements,
            } => {
                self.has_any_identifier(*name)
                    && self.has_iteration(iteration)
                    && self.has_statements(statements)
            }
            StatementForm::Block { name, body } => {
                self.has_any_identifier(*name) && self.has_body(*body)
            }
            StatementForm::Exit { name, condition } => {
                self.has_any_identifier(*name) && self.has_any_expression(*condition)
            }
            StatementForm::Return(value) => self.has_any_expression(*value),
            StatementForm::Accept(accept) => self.has_accept(accept),
            StatementForm::Delay(span) => self.has_expression(*span),
            StatementForm::Select(select) => self.has_select(select),
            StatementForm::Abort(tasks) => self.has_expressions(tasks),
            StatementForm::Raise(name) => self.has_any_expression(*name),
            StatementForm::Null | StatementForm::Terminate => true,
        }
    }

    /// Whether a statement stands in the text, and there is what it names.
    fn is_statement_whole(&self, node: &Statement) -> bool
        ensures { result ≡ trees.is_statement_whole self.now node.now }
    {
        node.at as usize <= self.bytes && self.does(&node.form)
    }

    /// Whether that holds of statements.
    pub fn are_statements_whole(&self, nodes: &[Statement]) -> bool
        ensures { result ≡ list_all (trees.is_statement_whole self.now) nodes.now }
    {
        nodes.iter().all(|node| self.is_statement_whole(node))
    }

    /// Whether there are such declarations.
    fn has_declarations(&self, ids: &[DeclarationId]) -> bool
        ensures { result ≡ list_all (trees.has_declaration self.now) ids.now }
    {
        ids.iter().all(|id| self.has_declaration(*id))
    }

    /// Whether there is what a body names.
    fn is_body_whole(&self, body: &Body) -> bool
        ensures { result ≡ trees.is_body_whole self.now body.now }
    {
        self.has_declarations(&body.declarations)
            && self.has_statements(&body.statements)
            && self.has_alternatives(&body.handlers)
    }

    /// Whether that holds of bodies.
    pub fn are_bodies_whole(&self, bodies: &[Body]) -> bool
        ensures { result ≡ list_all (trees.is_body_whole self.now) bodies.now }
    {
        bodies.iter().all(|body| self.is_body_whole(body))
    }
}
