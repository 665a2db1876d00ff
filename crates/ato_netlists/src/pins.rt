//! The pins of a tree in groups, by the numbers of their classes.
ghost use Rattle.std.specs.Prelude.{◌≡◌, ◌<◌, All, IfOk, length};
ghost use Rattle.ato_base.specs.Classes.{Classes};
ghost use Rattle.ato_instance_tree.specs.Trees.{is_pin};
ghost use Rattle.ato_nets.specs.Groups.{numbers_below};
ghost use Rattle.ato_netlists.specs.Pins.{pin_numbers, AreFirsts, AreOneClass};

use ato_base::{List, NoMemory};
use ato_instance_tree::{Node, NodeKind};
use ato_nets::groups_of;
use std::alloc::Global;

/// Whether a node is a pin.
fn is_pin(node: &Node) -> bool
    ensures { result ≡ is_pin node.now.kind }
{
    matches!(node.kind, NodeKind::Pin)
}

/// The numbers of the nodes that are pins.
pub(crate) fn pins(alloc: Global, nodes: &[Node]) -> Result<List<usize>, NoMemory>
    ensures { IfOk result (λ pins. pins ≡ pin_numbers 0 nodes.now) }
{
    let mut found = List::new(alloc);
    for (number, node) in nodes.iter().enumerate() {
        if is_pin(node) {
            found.push(number)?;
        }
    }
    Ok(found)
}

/// For each pin the place of the first pin with the same class number.
fn firsts(alloc: Global, of: &[u32], pins: &[usize]) -> Result<Vec<usize>, NoMemory>
    requires pins { All (λ pin. pin < length of.now) pins.now }
    requires classes { All (λ class. class < length of.now) of.now }
    ensures { IfOk result (λ firsts. AreFirsts of.now pins.now firsts.items) }
{
    let mut place_of = vec![in alloc; pins.len(); of.len()]?;
    let mut firsts = Vec::new(alloc);
    for (place, pin) in pins.iter().enumerate() {
        let class = of[*pin] as usize;
        if place_of[class] == pins.len() {
            place_of[class] = place;
        }
        firsts.push(place_of[class])?;
    }
    Ok(firsts)
}

/// Pins in groups by the numbers of their classes, in the order of their first pins. A group lists places among the pins.
pub(crate) fn groups(
    alloc: Global,
    of: &[u32],
    pins: &[usize],
) -> Result<List<List<usize>>, NoMemory>
    requires pins { All (λ pin. pin < length of.now) pins.now }
    requires classes { All (λ class. class < length of.now) of.now }
    ensures { IfOk result (λ groups. Classes (AreOneClass of.now pins.now) (numbers_below (length pins.now)) groups) }
{
    let firsts = firsts(alloc, of, pins)?;
    groups_of(alloc, &firsts, 0, pins.len())
}
