ghost use Rattle.std.specs.Prelude.{◌≡◌, ◌+◌, ◌<◌, ◌||◌, nat_lt, All, IfOk, length, map};
ghost use Rattle.ato_first.specs.declared.first_form.Block.{Block};
ghost use Rattle.ato_first.specs.FirstPoints.{AreJoined, AreKnown, IsJoinedByLine, pins_of};
ghost use Rattle.ato_base.specs.LeastEquivalence.{IsLeastEquivalence};
ghost use Rattle.ato_first.specs.FirstGroups.{class_name, group_net, label_at};
ghost use Rattle.ato_first.specs.FirstParts.{part_of, slot_count};
ghost use Rattle.ato_first.specs.FirstNets.{comps_with, net_pin, IsNetList, SharesExactly};

use crate::first_form::Block;
use crate::first_points::{Points, joins_of, points_of};
use ato_base::{Comp, List, Net, NetList, NetPin, NoMemory, Text};
use ato_nets::{class_numbers, groups_of};
use std::alloc::Global;

/// The name of a net with this first pin: the first signal that is joined with it, or the pin's own.
fn class_name(alloc: Global, points: &Points, of: &[usize], pin: usize) -> Result<Text, NoMemory>
    requires size { length of.now ≡ length points.now.signals + length points.now.pins }
    requires pin { pin < length points.now.pins }
    ensures { IfOk result (λ name. name ≡ class_name points.now of.now pin) }
{
    let signals = points.signals.len();
    let class = of[signals + pin];
    if class < signals {
        return Text::copy(alloc, points.signals.text(class));
    }
    let mut name = Text::copy(alloc, ":")?;
    name.push_str(points.pins.text(pin))?;
    Ok(name)
}

fn net_pin(alloc: Global, points: &Points, pin: usize) -> Result<NetPin, NoMemory>
    requires { pin < length points.now.pins }
    ensures { IfOk result (λ made. made ≡ net_pin (label_at points.now pin)) }
{
    Ok(NetPin {
        comp: 0,
        label: Text::copy(alloc, points.pins.text(pin))?,
    })
}

fn net_pins(alloc: Global, points: &Points, group: &[usize]) -> Result<List<NetPin>, NoMemory>
    requires { All (λ pin. pin < length points.now.pins) group.now }
    ensures { IfOk result (λ pins. pins ≡ map (λ pin. net_pin (label_at points.now pin)) group.now) }
{
    let mut pins = List::new(alloc);
    for pin in group {
        pins.push(net_pin(alloc, points, *pin)?)?;
    }
    Ok(pins)
}

/// The net of a group of pins.
fn group_net(alloc: Global, points: &Points, of: &[usize], group: &[usize]) -> Result<Net, NoMemory>
    requires size { length of.now ≡ length points.now.signals + length points.now.pins }
    requires pins { All (λ pin. pin < length points.now.pins) group.now }
    ensures { IfOk result (λ net. net ≡ group_net points.now of.now group.now) }
{
    let name = match group {
        [] => Text::new(alloc),
        [first, ..] => class_name(alloc, points, of, *first)?,
    };
    Ok(Net {
        name,
        pins: net_pins(alloc, points, group)?,
    })
}

fn nets_of(
    alloc: Global,
    points: &Points,
    of: &[usize],
    groups: &[List<usize>],
) -> Result<List<Net>, NoMemory>
    requires size { length of.now ≡ length points.now.signals + length points.now.pins }
    requires pins { All (λ group. All (λ pin. pin < length points.now.pins) group) groups.now }
    ensures { IfOk result (λ nets. nets ≡ map (group_net points.now of.now) groups.now) }
{
    let mut nets = List::new(alloc);
    for group in groups {
        nets.push(group_net(alloc, points, of, group.as_slice())?)?;
    }
    Ok(nets)
}

/// The one part, where there is one, with what stands for it in the netlist.
fn comps_of(alloc: Global, value: &str, is_comp: bool) -> Result<List<Comp>, NoMemory>
    ensures { IfOk result (λ comps. comps ≡ comps_with is_comp value.now) }
{
    let mut comps = List::new(alloc);
    if is_comp {
        comps.push(Comp {
            designator: Text::copy(alloc, "U1")?,
            value: Text::copy(alloc, value)?,
            footprint: Text::new(alloc),
            path: Text::new(alloc),
        })?;
    }
    Ok(comps)
}

/// Whether a block with so many slots and pins is a part.
fn is_comp(slots: usize, pins: usize) -> bool
    ensures { result ≡ (nat_lt 0 slots || nat_lt 0 pins) }
{
    slots > 0 || pins > 0
}

/// The net list of a block of the first form, with what stands for its part: its nets are the classes of joined pins.
pub fn list_of(alloc: Global, block: &Block, value: &str, slots: usize) -> Result<NetList, NoMemory>
    requires known { AreKnown block.now }
    requires slots { slots ≡ slot_count (part_of block.now.lines) }
    ensures list { IfOk result (IsNetList block.now value.now) }
    ensures shares { IfOk result (SharesExactly block.now) }
{
    let lines = block.lines.as_slice();
    let points = points_of(alloc, lines)?;
    let joins = joins_of(alloc, &points, lines)?;
    let signals = points.signals.len();
    let pins = points.pins.len();
    let of = class_numbers(alloc, signals + pins, &joins)?;
    let groups = groups_of(alloc, &of, signals, pins)?;
    Ok(NetList {
        comps: comps_of(alloc, value, is_comp(slots, pins))?,
        nets: nets_of(alloc, &points, &of, groups.as_slice())?,
    })
}

/// Being joined is the least equivalence that holds the joins of a block's lines. It does nothing: the
/// law is its contract.
pub fn joining()
    ensures equivalence { (block : Block) → IsLeastEquivalence (IsJoinedByLine block) (AreJoined block) }
{}
