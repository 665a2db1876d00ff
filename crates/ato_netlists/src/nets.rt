//! The net list of a tree.
ghost use Rattle.std.specs.Prelude.{◌≡◌, ℕ, ◌<◌, List, [], ◌∷◌, All, None, IfOk, length, map};
ghost use Rattle.ato_instance_tree.specs.declared.tree.Tree.{Tree};
ghost use Rattle.ato_instance_tree.specs.Elaborated.{IsElaborated, IsLoaded};
ghost use Rattle.ato_instance_tree.specs.TreeFaults.{Limits};
ghost use Rattle.ato_links.specs.Linked.{IsLinked, IsTreeOf, library_of};
ghost use Rattle.ato_links.specs.ByNumbers.{group_name, group_net, nets_by};
ghost use Rattle.ato_links.specs.Nets.{Pin, IsNetList, net_pin, pin_text};
ghost use Rattle.ato_links.specs.Parts.{path_text};
ghost use Rattle.ato_netlists.specs.Boards.{AreNumbers, IsBoard, IsPinAt, IsSignalAt, IsWithin, pin_at};
ghost use Rattle.ato_netlists.specs.Known.{IsAt};

use crate::comps::comps;
use crate::naming::signals;
use crate::parts::{Part, parts as parts_of, small};
use crate::paths::path_text;
use crate::pins::{groups, pins};
use crate::strings::Strings;
use ato_base::{List, Net, NetList, NetPin, NoMemory, PartRow, Text};
use ato_files::Program;
use ato_instance_tree::{Node, Tree};
use ato_links::Classes;
use std::alloc::Global;

/// For each node the number of its part, or how many parts there are.
fn numbers_of(alloc: Global, count: usize, parts: &[Part]) -> Result<Vec<u32>, NoMemory>
    ensures { IfOk result (λ numbers. AreNumbers count parts.now numbers.items) }
{
    let none = small(parts.len())?;
    let mut numbers = vec![in alloc; none; count]?;
    for (place, part) in parts.iter().enumerate() {
        let number = small(place)?;
        let node = part.node as usize;
        if node < count && numbers[node] == none {
            numbers[node] = number;
        }
    }
    Ok(numbers)
}

/// Puts the nodes, the classes and the numbers of parts together.
#[derive(Clone, Copy)]
struct Board<'a> {
    alloc: Global,
    program: &'a Program,
    nodes: &'a [Node],
    /// For each node the number of its class.
    of: &'a [u32],
    /// For each node the number of its part.
    parts: &'a [u32],
    /// The nodes that are pins.
    pins: &'a [usize],
    /// For each class the signal that names its net.
    signals: &'a [Option<usize>],
}

/// The path of an instance.
fn path(board: &Board<'_>, number: u32) -> Result<Text, NoMemory>
    ensures { IfOk result (λ text. (tree : Tree) (entry : ℕ) (path : List ℕ) → IsBoard tree entry board.now → IsAt board.now.program.now entry number path
        → text ≡ path_text board.now.program.now.names path) }
{
    path_text(board.alloc, &board.program.names, board.nodes, number)
}

/// The path of a signal: that of its instance, a point and its name. The root has no path, so no point stands behind it.
fn signal_text(board: &Board<'_>, number: usize) -> Result<Text, NoMemory>
    requires within { IsWithin board.now }
    requires number { number < length board.now.nodes.now }
    ensures { IfOk result (λ text. (tree : Tree) (entry : ℕ) (path : List ℕ) → IsBoard tree entry board.now → IsSignalAt board.now.program.now entry number path
        → text ≡ path_text board.now.program.now.names path) }
{
    let node = &board.nodes[number];
    let Some(parent) = node.parent else {
        return Err(NoMemory);
    };
    let mut text = path(board, parent)?;
    if board.nodes[parent as usize].parent.is_some() {
        text.push_str(".")?;
    }
    text.push_str(node.name.as_str())?;
    Ok(text)
}

/// A pin's own name: the path of its component, a colon and its label.
fn pin_text(board: &Board<'_>, number: usize) -> Result<Text, NoMemory>
    requires number { number < length board.now.nodes.now }
    ensures { IfOk result (λ text. (tree : Tree) (entry : ℕ) (pin : Pin) → IsBoard tree entry board.now → IsPinAt board.now.program.now entry number pin
        → text ≡ pin_text board.now.program.now.names pin) }
{
    let node = &board.nodes[number];
    let Some(parent) = node.parent else {
        return Err(NoMemory);
    };
    let mut text = path(board, parent)?;
    text.push_str(":")?;
    text.push_str(node.name.as_str())?;
    Ok(text)
}

/// The name of the net of a pin: the path of its signal, or the pin's own name.
fn net_name(board: &Board<'_>, number: usize) -> Result<Text, NoMemory>
    requires within { IsWithin board.now }
    requires number { number < length board.now.nodes.now }
    ensures { IfOk result (λ text. (tree : Tree) (entry : ℕ) (pin : Pin) → IsBoard tree entry board.now → IsPinAt board.now.program.now entry number pin
        → text ≡ group_name board.now.program.now.files entry board.now.program.now.names board.now.of.now ((number, pin) ∷ [])) }
{
    let class = board.of[number] as usize;
    match board.signals[class] {
        Some(signal) => signal_text(board, signal),
        None => pin_text(board, number),
    }
}

/// A pin in the net list.
fn net_pin(board: &Board<'_>, number: usize) -> Result<NetPin, NoMemory>
    requires within { IsWithin board.now }
    requires number { number < length board.now.nodes.now }
    ensures { IfOk result (λ made. (tree : Tree) (entry : ℕ) (pin : Pin) → IsBoard tree entry board.now → IsPinAt board.now.program.now entry number pin
        → made ≡ net_pin board.now.program.now.files entry board.now.program.now.names pin) }
{
    let node = &board.nodes[number];
    let Some(parent) = node.parent else {
        return Err(NoMemory);
    };
    Ok(NetPin {
        comp: board.parts[parent as usize],
        label: Text::copy(board.alloc, node.name.as_str())?,
    })
}

/// The pins of a net.
fn net_pins(board: &Board<'_>, group: &[usize]) -> Result<List<NetPin>, NoMemory>
    requires within { IsWithin board.now }
    requires group { All (λ place. place < length board.now.pins.now) group.now }
    ensures { IfOk result (λ pins. (tree : Tree) (entry : ℕ) → IsBoard tree entry board.now
        → pins ≡ map (λ place. net_pin board.now.program.now.files entry board.now.program.now.names (pin_at board.now.program.now entry place).1) group.now) }
{
    let mut pins = List::new(board.alloc);
    for place in group {
        pins.push(net_pin(board, board.pins[*place])?)?;
    }
    Ok(pins)
}

/// The net of pins, of which there is at least one.
fn net(board: &Board<'_>, group: &[usize]) -> Result<Net, NoMemory>
    requires within { IsWithin board.now }
    requires group { All (λ place. place < length board.now.pins.now) group.now }
    requires some { 0 < length group.now }
    ensures { IfOk result (λ net. (tree : Tree) (entry : ℕ) → IsBoard tree entry board.now
        → net ≡ group_net board.now.program.now.files entry board.now.program.now.names board.now.of.now (map (pin_at board.now.program.now entry) group.now)) }
{
    Ok(Net {
        name: net_name(board, board.pins[group[0]])?,
        pins: net_pins(board, group)?,
    })
}

/// The nets of groups of pins.
fn nets_of(board: &Board<'_>, groups: &[List<usize>]) -> Result<List<Net>, NoMemory>
    requires within { IsWithin board.now }
    requires groups { All (λ group. All (λ place. place < length board.now.pins.now) group) groups.now }
    requires some { All (λ group. 0 < length group) groups.now }
    ensures { IfOk result (λ nets. (tree : Tree) (entry : ℕ) → IsBoard tree entry board.now
        → nets ≡ map (λ group. group_net board.now.program.now.files entry board.now.program.now.names board.now.of.now (map (pin_at board.now.program.now entry) group)) groups.now) }
{
    let mut nets = List::new(board.alloc);
    for group in groups {
        nets.push(net(board, group.as_slice())?)?;
    }
    Ok(nets)
}

/// The nets of a tree.
fn nets(board: &Board<'_>) -> Result<List<Net>, NoMemory>
    requires within { IsWithin board.now }
    ensures { IfOk result (λ nets. (tree : Tree) (entry : ℕ) → IsBoard tree entry board.now
        → nets ≡ nets_by board.now.program.now.files entry board.now.program.now.names board.now.of.now) }
{
    let groups = groups(board.alloc, board.of, board.pins)?;
    nets_of(board, groups.as_slice())
}

/// The net list of a tree without a fault, by the classes of its nodes and the rows of its parts, in order.
///
/// # Errors
///
/// Where memory runs out.
pub fn netlist(
    alloc: Global,
    program: &Program,
    tree: &Tree,
    classes: &Classes,
    parts: &[PartRow],
) -> Result<NetList, NoMemory>
    requires loaded { IsLoaded program.now }
    requires tree { IsTreeOf program.now tree.now }
    requires sound { tree.now.first ≡ None }
    requires classes { (most : Limits) (name : List ℕ) (is : IsElaborated most program.now name tree.now)
        → IsLinked program.now is.entry classes.now }
    ensures { IfOk result (λ list. (most : Limits) (name : List ℕ) (is : IsElaborated most program.now name tree.now)
        → IsNetList program.now.files is.entry program.now.names (library_of program.now) parts.now list) }
{
    let nodes = tree.nodes.as_slice();
    let strings = Strings::of(alloc, program, tree)?;
    let found = parts_of(alloc, tree, &strings)?;
    let numbers = numbers_of(alloc, nodes.len(), found.as_slice())?;
    let pins = pins(alloc, nodes)?;
    let signals = signals(alloc, nodes, classes.of.as_slice())?;
    let board = Board {
        alloc,
        program,
        nodes,
        of: classes.of.as_slice(),
        parts: &numbers,
        pins: pins.as_slice(),
        signals: &signals,
    };
    Ok(NetList {
        comps: comps(alloc, found.as_slice(), parts)?,
        nets: nets(&board)?,
    })
}
