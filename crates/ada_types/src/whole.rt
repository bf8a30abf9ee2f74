//! Whether what is noted of types fits the tree.

ghost use Rattle.std.specs.Prelude.{◌≡◌};
ghost use Rattle.std.specs.List.{list_all};
ghost use Rattle.ada_types.specs.Types as types;

use crate::bounds::Bounds;
use crate::class::Class;
use crate::typed::Declared;
use crate::types::{MOST_COMPONENTS, Subtype, TypeForm, TypeId};
use ada_names::{Literal, LiteralId};
use ada_text::tree::{DeclarationForm, DeclarationId, Nodes};

/// What the type with this index is.
fn form(forms: &[TypeForm], id: TypeId) -> Option<TypeForm>
    ensures { result ≡ types.form forms.now id }
{
    forms.get(id.0).copied()
}

/// Whether there is such a type.
fn has_type(forms: &[TypeForm], id: TypeId) -> bool
    ensures { result ≡ types.has_type forms.now id }
{
    id.0 < forms.len()
}

/// The range of a base type, if that is scalar.
fn range_of(forms: &[TypeForm], id: TypeId) -> Option<Bounds>
    ensures { result ≡ types.range_in forms.now id }
{
    match form(forms, id) {
        Some(form) => form.range(),
        None => None,
    }
}

/// Whether bounds lie in a range, or neither is there.
fn fits(range: Option<Bounds>, bounds: Option<Bounds>) -> bool
    ensures { result ≡ types.fits range bounds }
{
    match (range, bounds) {
        (Some(range), Some(bounds)) => range.includes(bounds),
        (None, None) => true,
        _ => false,
    }
}

/// Whether a subtype is of a type that is there, and has a range if that is scalar, which lies in the type's.
fn has_subtype(forms: &[TypeForm], subtype: Subtype) -> bool
    ensures { result ≡ types.has_subtype forms.now subtype }
{
    has_type(forms, subtype.base) && fits(range_of(forms, subtype.base), subtype.bounds)
}

/// Whether a value lies in a range, if there is one.
fn lies_in(range: Option<Bounds>, value: i64) -> bool
    ensures { result ≡ types.lies_in range value }
{
    match range {
        Some(range) => range.contains(value),
        None => false,
    }
}

/// Whether there is such a type, and a static value lies in its range.
fn has_value(forms: &[TypeForm], base: TypeId, value: Option<i64>) -> bool
    ensures { result ≡ types.has_value forms.now base value }
{
    match value {
        Some(value) => lies_in(range_of(forms, base), value),
        None => has_type(forms, base),
    }
}

/// Whether there is such a scalar type, and static bounds lie in its range.
fn has_range(forms: &[TypeForm], base: TypeId, bounds: Option<Bounds>) -> bool
    ensures { result ≡ types.has_range forms.now base bounds }
{
    match (range_of(forms, base), bounds) {
        (Some(range), Some(bounds)) => range.includes(bounds),
        (Some(_), None) => true,
        (None, _) => false,
    }
}

/// Whether two enumeration types are the same.
fn is_same_owner(one: Option<DeclarationId>, other: Option<DeclarationId>) -> bool
    ensures { result ≡ types.is_same_owner one other }
{
    match (one, other) {
        (Some(one), Some(other)) => one.0 == other.0,
        (None, None) => true,
        _ => false,
    }
}

/// Whether an enumeration type is that of a literal, which has this position in it.
fn is_of(form: TypeForm, literal: &Literal, value: i64) -> bool
    ensures { result ≡ types.is_of form literal.now value }
{
    match form {
        TypeForm::Enumeration { owner, .. } => {
            is_same_owner(owner, literal.owner)
                && i64::try_from(literal.position).is_ok_and(|position| position == value)
        }
        _ => false,
    }
}

/// Whether there is such a literal, of this type, and at this position.
fn has_literal(
    forms: &[TypeForm],
    literals: &[Literal],
    base: TypeId,
    id: LiteralId,
    value: i64,
) -> bool
    ensures { result ≡ types.has_literal forms.now literals.now base id value }
{
    match (form(forms, base), literals.get(id.0)) {
        (Some(form), Some(literal)) => is_of(form, literal, value),
        _ => false,
    }
}

/// Whether a declaration is one of a task.
fn is_task(form: &DeclarationForm) -> bool
    ensures { result ≡ types.is_task form.now }
{
    matches!(form, DeclarationForm::Task { .. })
}

/// Whether a declaration is one of a function.
fn is_function(form: &DeclarationForm) -> bool
    ensures { result ≡ types.is_function form.now }
{
    match form {
        DeclarationForm::Subprogram {
            result: outcome,
            ..
        } => outcome.is_some(),
        _ => false,
    }
}

/// Whether a declaration is one of a procedure.
fn is_procedure(form: &DeclarationForm) -> bool
    ensures { result ≡ types.is_procedure form.now }
{
    match form {
        DeclarationForm::Subprogram {
            result: outcome,
            ..
        } => outcome.is_none(),
        _ => false,
    }
}

/// Whether a declaration is one of a task with an entry at this position.
fn has_entry(form: &DeclarationForm, position: usize) -> bool
    ensures { result ≡ types.has_entry form.now position }
{
    match form {
        DeclarationForm::Task { entries, .. } => position < entries.len(),
        _ => false,
    }
}

/// Whether there is such a task.
fn has_task(nodes: &Nodes, id: DeclarationId) -> bool
    ensures { result ≡ types.has_task nodes.now id }
{
    match nodes.declarations.get(id.0 as usize) {
        Some(node) => is_task(&node.form),
        None => false,
    }
}

/// Whether there is such a function.
fn has_function(nodes: &Nodes, id: DeclarationId) -> bool
    ensures { result ≡ types.has_function nodes.now id }
{
    match nodes.declarations.get(id.0 as usize) {
        Some(node) => is_function(&node.form),
        None => false,
    }
}

/// Whether there is such a procedure.
fn has_procedure(nodes: &Nodes, id: DeclarationId) -> bool
    ensures { result ≡ types.has_procedure nodes.now id }
{
    match nodes.declarations.get(id.0 as usize) {
        Some(node) => is_procedure(&node.form),
        None => false,
    }
}

/// Whether there is such a task with an entry at this position.
fn has_entry_of(nodes: &Nodes, id: DeclarationId, position: usize) -> bool
    ensures { result ≡ types.has_entry_of nodes.now id position }
{
    match nodes.declarations.get(id.0 as usize) {
        Some(node) => has_entry(&node.form, position),
        None => false,
    }
}

/// Whether an index range isn't too long.
fn is_short(bounds: Option<Bounds>) -> bool
    ensures { result ≡ types.is_short bounds }
{
    match bounds {
        Some(bounds) => bounds.is_within(MOST_COMPONENTS),
        None => false,
    }
}

/// Whether what a type is made of is there.
fn has_parts(nodes: &Nodes, forms: &[TypeForm], form: TypeForm) -> bool
    ensures { result ≡ types.has_parts nodes.now forms.now form }
{
    match form {
        TypeForm::Array { index, component } => {
            is_short(index.bounds) && has_subtype(forms, index) && has_subtype(forms, component)
        }
        TypeForm::Task(id) => has_task(nodes, id),
        TypeForm::Integer(_)
        | TypeForm::Enumeration { .. }
        | TypeForm::Character
        | TypeForm::Universal
        | TypeForm::Duration
        | TypeForm::Text => true,
    }
}

/// Whether that is so of all types.
pub fn have_forms(nodes: &Nodes, forms: &[TypeForm]) -> bool
    ensures { result ≡ list_all (types.has_parts nodes.now forms.now) forms.now }
{
    forms.iter().all(|form| has_parts(nodes, forms, *form))
}

/// Whether what a declaration declares is of a type that is there.
fn has_declared(forms: &[TypeForm], declared: Option<Declared>) -> bool
    ensures { result ≡ types.has_declared forms.now declared }
{
    match declared {
        Some(declared) => {
            has_subtype(forms, declared.subtype)
                && has_value(forms, declared.subtype.base, declared.value)
        }
        None => true,
    }
}

/// Whether that is so of all declarations.
pub fn have_declared(forms: &[TypeForm], declarations: &[Option<Declared>]) -> bool
    ensures { result ≡ list_all (types.has_declared forms.now) declarations.now }
{
    declarations
        .iter()
        .all(|declared| has_declared(forms, *declared))
}

/// Whether what an expression is fits its type, and what it names is there.
fn has_class(nodes: &Nodes, forms: &[TypeForm], literals: &[Literal], class: Class) -> bool
    ensures { result ≡ types.has_class nodes.now forms.now literals.now class }
{
    match class {
        Class::Value { base, value } => has_value(forms, base, value),
        Class::Literal {
            base,
            literal,
            value,
        } => has_literal(forms, literals, base, literal, value),
        Class::Object { subtype, value, .. } => {
            has_subtype(forms, subtype) && has_value(forms, subtype.base, value)
        }
        Class::Call { function, subtype } => {
            has_function(nodes, function) && has_subtype(forms, subtype)
        }
        Class::Conversion(subtype) | Class::Subtype(subtype) | Class::AttributeFunction(subtype) =>
            { has_subtype(forms, subtype) }
        Class::Range { base, bounds } => has_range(forms, base, bounds),
        Class::Function(id) => has_function(nodes, id),
        Class::Procedure(id) | Class::ProcedureCall(id) => has_procedure(nodes, id),
        Class::Entry { task, position }
        | Class::Family { task, position }
        | Class::EntryCall { task, position } => has_entry_of(nodes, task, position),
        Class::Output(_)
        | Class::OutputCall(_)
        | Class::Formal(_)
        | Class::Exception
        | Class::Region => true,
    }
}

/// Whether that is so, if something is noted of the expression.
fn has_any_class(
    nodes: &Nodes,
    forms: &[TypeForm],
    literals: &[Literal],
    class: Option<Class>,
) -> bool
    ensures { result ≡ types.has_any_class nodes.now forms.now literals.now class }
{
    match class {
        Some(class) => has_class(nodes, forms, literals, class),
        None => true,
    }
}

/// Whether that is so of all expressions.
pub fn have_classes(
    nodes: &Nodes,
    forms: &[TypeForm],
    literals: &[Literal],
    classes: &[Option<Class>],
) -> bool
    ensures { result ≡ list_all (types.has_any_class nodes.now forms.now literals.now) classes.now }
{
    classes
        .iter()
        .all(|class| has_any_class(nodes, forms, literals, *class))
}
