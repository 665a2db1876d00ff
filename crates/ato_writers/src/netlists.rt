ghost use Rattle.std.specs.Prelude.{◌≡◌, ◌++◌, ◌<◌, ◌^◌, OnOk, IfOk, length};
ghost use Rattle.std.specs.List.{flat_map};
ghost use Rattle.ato_writers.specs.Netlists.{escaped, quoted, field, comp_text, node_text, net_text, nets_text, list_text, designator_at};

use ato_base::{Comp, List, Net, NetList, NetPin, NoMemory};
use std::alloc::Global;

fn push(out: &mut Vec<u8>, piece: &[u8]) -> Result<(), NoMemory>
    ensures { OnOk result (out.new.items ≡ out.old.items ++ piece.now) }
{
    out.extend_from_slice(piece)?;
    Ok(())
}

/// A byte as it stands between quotes.
fn push_byte(out: &mut Vec<u8>, byte: u8) -> Result<(), NoMemory>
    ensures { OnOk result (out.new.items ≡ out.old.items ++ escaped byte) }
{
    match byte {
        b'\\' => push(out, b"\\\\"),
        b'"' => push(out, b"\\\""),
        b'\n' => push(out, b"\\n"),
        _ => push(out, &[byte]),
    }
}

fn push_escaped(out: &mut Vec<u8>, text: &[u8]) -> Result<(), NoMemory>
    ensures { OnOk result (out.new.items ≡ out.old.items ++ flat_map escaped text.now) }
{
    for byte in text {
        push_byte(out, *byte)?;
    }
    Ok(())
}

#[tactic(auto, unfolding(crate::specs::Netlists::quoted))]
fn push_quoted(out: &mut Vec<u8>, text: &str) -> Result<(), NoMemory>
    ensures { OnOk result (out.new.items ≡ out.old.items ++ quoted text.now) }
{
    push(out, b"\"")?;
    push_escaped(out, text.as_bytes())?;
    push(out, b"\"")
}

/// A text in quotes, after an opening.
#[tactic(auto, unfolding(crate::specs::Netlists::field))]
fn push_field(out: &mut Vec<u8>, opening: &[u8], text: &str) -> Result<(), NoMemory>
    ensures { OnOk result (out.new.items ≡ out.old.items ++ field opening.now text.now) }
{
    push(out, opening)?;
    push_quoted(out, text)
}

fn push_comp(out: &mut Vec<u8>, comp: &Comp) -> Result<(), NoMemory>
    ensures { OnOk result (out.new.items ≡ out.old.items ++ comp_text comp.now) }
{
    push_field(out, b"    (comp (ref ", comp.designator.as_str())?;
    push_field(out, b") (value ", comp.value.as_str())?;
    push_field(out, b") (footprint ", comp.footprint.as_str())?;
    push_field(out, b") (path ", comp.path.as_str())?;
    push(out, b"))\n")?;
    Ok(())
}

fn push_comps(out: &mut Vec<u8>, comps: &[Comp]) -> Result<(), NoMemory>
    ensures { OnOk result (out.new.items ≡ out.old.items ++ flat_map comp_text comps.now) }
{
    for comp in comps {
        push_comp(out, comp)?;
    }
    Ok(())
}

/// The designator of a part, or nothing where there is none.
fn designator_at(comps: &[Comp], number: u32) -> &str
    ensures { result.now ≡ designator_at comps.now number }
{
    match comps.get(number as usize) {
        Some(comp) => comp.designator.as_str(),
        None => "",
    }
}

fn push_node(out: &mut Vec<u8>, comps: &[Comp], pin: &NetPin) -> Result<(), NoMemory>
    ensures { OnOk result (out.new.items ≡ out.old.items ++ node_text comps.now pin.now) }
{
    push_field(out, b"      (node (ref ", designator_at(comps, pin.comp))?;
    push_field(out, b") (pin ", pin.label.as_str())?;
    push(out, b"))\n")?;
    Ok(())
}

fn push_nodes(out: &mut Vec<u8>, comps: &[Comp], pins: &[NetPin]) -> Result<(), NoMemory>
    ensures { OnOk result (out.new.items ≡ out.old.items ++ flat_map (node_text comps.now) pins.now) }
{
    for pin in pins {
        push_node(out, comps, pin)?;
    }
    Ok(())
}

fn push_net(
    alloc: Global,
    out: &mut Vec<u8>,
    comps: &[Comp],
    code: usize,
    net: &Net,
) -> Result<(), NoMemory>
    ensures { OnOk result (out.new.items ≡ out.old.items ++ net_text comps.now code net.now) }
{
    let number = code.to_string(alloc)?;
    push_field(out, b"    (net (code ", number.as_str())?;
    push_field(out, b") (name ", net.name.as_str())?;
    push(out, b")\n")?;
    push_nodes(out, comps, net.pins.as_slice())?;
    push(out, b"    )\n")?;
    Ok(())
}

/// The nets, with codes from 1 on.
fn push_nets(alloc: Global, out: &mut Vec<u8>, comps: &[Comp], nets: &[Net]) -> Result<(), NoMemory>
    requires { length nets.now < 2 ^ 63 }
    ensures { OnOk result (out.new.items ≡ out.old.items ++ nets_text comps.now 1 nets.now) }
{
    for (at, net) in nets.iter().enumerate() {
        push_net(alloc, out, comps, at + 1, net)?;
    }
    Ok(())
}

/// The text of a net list.
pub fn net_text(alloc: Global, list: &NetList) -> Result<List<u8>, NoMemory>
    ensures { IfOk result (λ text. text ≡ list_text list.now) }
{
    let mut out = Vec::new(alloc);
    push(&mut out, b"(export (version \"ato-1\")\n  (components\n")?;
    push_comps(&mut out, list.comps.as_slice())?;
    push(&mut out, b"  )\n  (nets\n")?;
    push_nets(alloc, &mut out, list.comps.as_slice(), list.nets.as_slice())?;
    push(&mut out, b"  )\n)\n")?;
    Ok(List::from_vec(out))
}
