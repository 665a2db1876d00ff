//! Which instances are slots.
ghost use Rattle.std.specs.Prelude.{◌≡◌};
ghost use Rattle.std.specs.Option.{option_map};
ghost use Rattle.ato_instance_tree.specs.PathFaults.{text_of, string_of};
ghost use Rattle.ato_elab.specs.Late.{assigning, string_in, kind_is_component, component_at, slot_in, slot_mark};

use crate::faults::{Mark, wrong};
use crate::finding_names::named;
use crate::late_ground::Ground;
use ato_ast::{Expr, Quoted, Stmt, Value};
use ato_base::Name;
use ato_instance_tree::{Node, NodeKind, first_token};

/// The string that a value is.
pub(crate) fn text_of(value: &Value) -> Option<Quoted>
    ensures { result ≡ text_of value.now }
{
    match value {
        Value::Text(text) => Some(*text),
        Value::Truth(_, _) | Value::Expr(_) => None,
    }
}

/// The string that a statement assigns.
pub fn string_of(stmt: &Stmt) -> Option<Quoted>
    ensures { result ≡ string_of stmt.now }
{
    match stmt {
        Stmt::Assign(_, value, _) => text_of(value),
        Stmt::Declare(_, _, Some(value), _) => text_of(value),
        _ => None,
    }
}

/// The statement that assigns to a name of an instance.
#[tactic(auto, unfolding(crate::specs::Late::assigning))]
fn assigning<'a>(ground: &Ground<'a>, instance: u32, name: Name) -> Option<&'a Stmt>
    ensures { option_map (λ s. s.now) result ≡ assigning ground.now instance name.0 }
{
    let number = ground.assigned.get(instance, name.0)?;
    let stmt = ground.stmts.get(number as usize)?;
    Some(*stmt)
}

/// The string that counts for a name of an instance, if the name is no member of it.
#[tactic(auto, unfolding(crate::specs::Late::string_in))]
fn string_in(ground: &Ground<'_>, instance: u32, name: Name) -> Option<Quoted>
    ensures { result ≡ string_in ground.now instance name.0 }
{
    match named(ground.built, instance, name) {
        Some(_) => None,
        None => match assigning(ground, instance, name) {
            Some(stmt) => string_of(stmt),
            None => None,
        },
    }
}

/// Whether a kind is that of components.
fn kind_is_component(kind: NodeKind) -> bool
    ensures { result ≡ kind_is_component kind }
{
    match kind {
        NodeKind::Component => true,
        _ => false,
    }
}

/// Whether the node of a number is a component.
fn component_at(nodes: &[Node], number: u32) -> bool
    ensures { result ≡ component_at nodes.now number }
{
    match nodes.get(number as usize) {
        Some(node) => kind_is_component(node.kind),
        None => false,
    }
}

/// Whether the node of a number is a component with a string for `kind`.
#[tactic(auto, unfolding(crate::specs::Late::slot_in))]
fn slot_in(ground: &Ground<'_>, number: u32) -> bool
    ensures { result ≡ slot_in ground.now number }
{
    if !component_at(ground.built.nodes.as_slice(), number) {
        return false;
    }
    match ground.kind {
        Some(name) => string_in(ground, number, name).is_some(),
        None => false,
    }
}

/// What is wrong with an expression that is assigned to a parameter of an instance: that it is a slot.
pub(crate) fn slot_mark(ground: &Ground<'_>, holder: Option<u32>, expr: &Expr) -> Option<Mark>
    ensures { result ≡ slot_mark ground.now holder expr.now }
{
    match holder {
        None => None,
        Some(instance) => {
            if slot_in(ground, instance) {
                Some(wrong(first_token(expr)))
            } else {
                None
            }
        }
    }
}
