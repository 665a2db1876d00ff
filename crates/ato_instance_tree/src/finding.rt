//! The statements of occurrences, and the nodes to which their paths lead.
ghost use Rattle.std.specs.Prelude.{◌≡◌, ◌<◌, ◌≤◌, ◌^◌, ℕ, List, Some, IfSome, MatchOption, length, slice_get};
ghost use Rattle.std.specs.Option.{option_and_then, option_map};
ghost use Rattle.ato_files.specs.Programs.{AreBlocks};
ghost use Rattle.ato_instance_tree.specs.declared.tree.Occurrence.{Occurrence};
ghost use Rattle.ato_instance_tree.specs.Elaborated.{IsElaborated, IsLoaded};
ghost use Rattle.ato_instance_tree.specs.Order as order;
ghost use Rattle.ato_instance_tree.specs.Targets.{is_called, child, named_child, led, led_from, pinned, stmt_at, statement_of, target_of, IsReached, ReachesNone};
ghost use Rattle.ato_instance_tree.specs.Trees.{is_pin};
ghost use Rattle.ato_instance_tree.specs.TreeFaults.{Limits};

use crate::texts::source_text;
use crate::{Node, NodeKind, Occurrence, Tree};
use ato_ast::{Block, Named, Path, Stmt};
use ato_base::{NameTable, TokenKind};
use ato_files::{Program, SourceFile};

fn is_pin(kind: NodeKind) -> bool
    ensures { result ≡ is_pin kind }
{
    match kind {
        NodeKind::Pin => true,
        _ => false,
    }
}

/// Whether a node stands in the instance of a number under this name, or under this label as a pin.
fn is_called(node: &Node, parent: usize, pin: bool, text: &[u8]) -> bool
    ensures { result ≡ is_called parent pin text.now node.now }
{
    let Some(above) = node.parent else {
        return false;
    };
    if parent != above as usize {
        return false;
    }
    if pin != is_pin(node.kind) {
        return false;
    }
    text == node.name.as_str().as_bytes()
}

/// The number of the first node that stands in the instance of a number under this name, or under this label as a pin.
fn child(nodes: &[Node], parent: usize, pin: bool, text: &[u8]) -> Option<usize>
    ensures { result ≡ child nodes.now parent pin text.now }
{
    for (number, node) in nodes.iter().enumerate() {
        if is_called(node, parent, pin, text) {
            return Some(number);
        }
    }
    None
}

/// The number of the member of an instance under a name.
fn named_child(names: &NameTable, nodes: &[Node], parent: usize, name: Named) -> Option<usize>
    ensures { result ≡ named_child names.now nodes.now parent name.name.0 }
{
    match names.text(name.name) {
        Some(text) => child(nodes, parent, false, text.as_bytes()),
        None => None,
    }
}

/// The number of the node to which names lead from an instance.
fn led(names: &NameTable, nodes: &[Node], steps: &[Named], from: usize) -> Option<usize>
    ensures { result ≡ led names.now nodes.now steps.now from }
{
    let mut at = from;
    for step in steps {
        at = named_child(names, nodes, at, *step)?;
    }
    Some(at)
}

/// The same for a path with a name; one without leads nowhere.
fn led_from(names: &NameTable, nodes: &[Node], steps: &[Named], from: usize) -> Option<usize>
    ensures { result ≡ led_from names.now nodes.now steps.now from }
{
    match steps {
        [] => None,
        [_, ..] => led(names, nodes, steps, from),
    }
}

/// The number of a node, or of its pin where a path ends in a number.
fn pinned(files: &[SourceFile], nodes: &[Node], pin: Option<TokenKind>, at: usize) -> Option<usize>
    ensures { result ≡ pinned files.now nodes.now pin at }
{
    match pin {
        None => Some(at),
        Some(TokenKind::Number { at: place, .. }) => {
            child(nodes, at, true, source_text(files, place))
        }
        Some(_) => None,
    }
}

/// The number of the node to which a path leads from the instance of a number.
fn reached(program: &Program, nodes: &[Node], from: usize, path: &Path) -> Option<usize>
    ensures within { (most : ℕ) → length nodes.now ≤ most → from < most → IfSome result (λ end. end < most) }
    ensures value { result ≡ option_and_then (pinned program.now.files nodes.now path.now.pin) (led_from program.now.names nodes.now path.now.steps from) }
{
    let at = led_from(&program.names, nodes, path.steps.as_slice(), from)?;
    pinned(program.files.as_slice(), nodes, path.pin, at)
}

/// A number as an u32, if an u32 holds it.
fn small(number: Option<usize>) -> Option<u32>
    ensures { ((wanted : ℕ) → number ≡ Some wanted → wanted < 2 ^ 32) → result ≡ number }
{
    let number = number?;
    if number > 0xffff_ffff {
        return None;
    }
    Some(number as u32)
}

/// The occurrence of a number.
fn occurrence_at(occurrences: &[Occurrence], number: usize) -> Option<Occurrence>
    ensures { result ≡ slice_get occurrences.now number }
{
    occurrences.get(number).copied()
}

/// The number of the instance of an occurrence.
fn node_of(at: Occurrence) -> usize
    ensures same { result ≡ at.node }
    ensures small { result < 2 ^ 32 }
{
    at.node as usize
}

/// The statement of a block at a line and a place in it.
fn stmt_in(block: &Block, line: usize, part: usize) -> Option<&Stmt>
    ensures { option_map (λ stmt. stmt.now) result ≡ option_and_then (λ l. slice_get l.parts part) (slice_get block.now.lines line) }
{
    block.lines.as_slice().get(line)?.parts.as_slice().get(part)
}

/// The statement that stands where an occurrence says.
fn stmt_at(program: &Program, at: Occurrence) -> Option<&Stmt>
    ensures { AreBlocks program.now.files program.now.blocks → option_map (λ stmt. stmt.now) result ≡ stmt_at program.now.files at.block at.line at.part }
{
    match program.declared_block(at.block) {
        Some(block) => stmt_in(block, at.line as usize, at.part as usize),
        None => None,
    }
}

/// The statement of an occurrence of a tree.
fn statement_of<'a>(tree: &Tree, program: &'a Program, occurrence: usize) -> Option<&'a Stmt>
    ensures { AreBlocks program.now.files program.now.blocks → option_map (λ stmt. stmt.now) result ≡ statement_of program.now tree.now occurrence }
{
    match occurrence_at(tree.occurrences.as_slice(), occurrence) {
        Some(at) => stmt_at(program, at),
        None => None,
    }
}

impl Tree {
    /// The statement of an occurrence. There is none where there is no such occurrence. It takes no memory.
    pub fn statement<'a>(&self, program: &'a Program, occurrence: u32) -> Option<&'a Stmt>
        ensures entries { AreBlocks program.now.files program.now.blocks → option_map (λ stmt. stmt.now) result ≡ statement_of program.now self.now occurrence }
        ensures walked { AreBlocks program.now.files program.now.blocks → (most : Limits) (name : List ℕ) (is : IsElaborated most program.now name self.now)
            → option_map (λ stmt. stmt.now) result ≡ option_map (λ o. o.at.stmt) (slice_get (order.occurrences program.now.files is.entry) occurrence) }
    {
        statement_of(self, program, occurrence as usize)
    }

    /// The number of the node to which a path leads from the instance of an occurrence. There is none where there is no such occurrence
    /// or the path leads to no node. It takes no memory.
    pub fn target(&self, program: &Program, occurrence: u32, path: &Path) -> Option<u32>
        ensures entries { length self.now.nodes ≤ 2 ^ 32 → result ≡ target_of program.now self.now occurrence path.now }
        ensures placed { IsLoaded program.now → length self.now.nodes ≤ 2 ^ 32 → (most : Limits) (name : List ℕ) → IsElaborated most program.now name self.now
            → (o : Occurrence) → slice_get self.now.occurrences occurrence ≡ Some o → MatchOption result (ReachesNone program.now self.now o path.now) (IsReached program.now self.now o path.now) }
    {
        match occurrence_at(self.occurrences.as_slice(), occurrence as usize) {
            Some(at) => small(reached(program, self.nodes.as_slice(), node_of(at), path)),
            None => None,
        }
    }
}
