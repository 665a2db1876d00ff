//! What a build decides: a good pick, or that none is.
ghost use Rattle.std.specs.Prelude.{◌≡◌, ◌∷◌, ◌<◌, ◌^◌, [], true, IfOk, string_bytes};
ghost use Rattle.std.specs.List.{list_all};
ghost use Rattle.std.specs.Option.{option_copied};
ghost use Rattle.ato_first.specs.FirstForm.{is_line};
ghost use Rattle.ato_first_catalog.specs.Catalogue.{ShowsContents};
ghost use Rattle.ato_first_catalog.specs.Contents.{Contents, numbered};
ghost use Rattle.ato_first_catalog.specs.WellMade.{IsWellMade};
ghost use Rattle.ato_cert.specs.Nodes as counting;
ghost use Rattle.ato_build.specs.Causes.{IsEnd};
ghost use Rattle.ato_build.specs.Boards.{board_of};
ghost use Rattle.ato_build.specs.Decisions.{IsDecision, PutsBuilt, PutsRefuted, net_output, cert_output};
ghost use Rattle.ato_first.specs.FirstParts.{part_of, slot_count, HasRanges, comp_value};
ghost use Rattle.ato_first.specs.FirstPoints.{AreKnown};

use crate::Status;
use crate::outputs::Output;
use crate::problems::problem_of;
use crate::project::Options;
use crate::texts::summary_text;
use ato_base::{List, NetList, NoMemory, Text};
use ato_cert::{Cert, Proof, cert_text, nodes};
use ato_first::{Block, list_of, part_of};
use ato_first_catalog::{Catalog, CatalogRow};
use ato_search::search;
use ato_writers::net_text;
use std::alloc::Global;

/// What a build decides: how it ends where all goes well, the files that it puts, and its summary.
#[derive(Debug, Drop)]
pub(crate) struct Decision {
    pub status: Status,
    pub outputs: Vec<Output>,
    pub summary: String,
}

/// The row of a catalogue with this number, counted from 1.
fn row_at(catalog: &Catalog, number: u32) -> Option<&CatalogRow>
    ensures { option_copied result ≡ numbered catalog.now.rows number }
{
    let before = number.checked_sub(1)?;
    catalog.rows.as_slice().get(before as usize)
}

/// The name of the part that a pick takes, or the block's where it takes none.
fn comp_value<'a>(block: &'a Block, catalog: &'a Catalog, pick: &[u32]) -> &'a str
    ensures { (contents : Contents) → ShowsContents catalog.now contents → result.now ≡ comp_value block.now contents pick.now }
{
    match pick {
        [] => block.name.as_str(),
        [number, ..] => match row_at(catalog, *number) {
            None => block.name.as_str(),
            Some(row) => row.part.as_str(),
        },
    }
}

/// How many slots a block has.
fn slot_count(block: &Block) -> usize
    requires { list_all is_line block.now.lines ≡ true }
    ensures { result ≡ slot_count (part_of block.now.lines) }
{
    match part_of(block.lines.as_slice()) {
        None => 0,
        Some(_) => 1,
    }
}

/// The netlist's file.
fn net_output(alloc: Global, options: &Options, list: &NetList) -> Result<Output, NoMemory>
    ensures { IfOk result (λ output. output ≡ net_output options.now list.now) }
{
    let out = options.out.as_str();
    let name = Text::from_string(format!(in alloc; "{out}.net")?);
    let bytes = net_text(alloc, list)?;
    Ok(Output { name, bytes })
}

/// The certificate's file.
fn cert_output(alloc: Global, options: &Options, cert: &Cert) -> Result<Output, NoMemory>
    ensures { IfOk result (λ output. output ≡ cert_output options.now cert.now) }
{
    let out = options.out.as_str();
    let name = Text::from_string(format!(in alloc; "{out}.cert")?);
    let bytes = cert_text(alloc, cert)?;
    Ok(Output { name, bytes })
}

/// What is put for a good pick: the netlist with it, and its certificate.
fn built_outputs(
    alloc: Global,
    options: &Options,
    list: &NetList,
    cert: &Cert,
) -> Result<Vec<Output>, NoMemory>
    ensures { IfOk result (λ outputs. outputs.items ≡ net_output options.now list.now ∷ cert_output options.now cert.now ∷ []) }
{
    let mut outputs = Vec::new(alloc);
    outputs.push(net_output(alloc, options, list)?)?;
    outputs.push(cert_output(alloc, options, cert)?)?;
    Ok(outputs)
}

/// What is put where no pick is good: the certificate.
fn refuted_outputs(alloc: Global, options: &Options, cert: &Cert) -> Result<Vec<Output>, NoMemory>
    ensures { IfOk result (λ outputs. outputs.items ≡ cert_output options.now cert.now ∷ []) }
{
    let mut outputs = Vec::new(alloc);
    outputs.push(cert_output(alloc, options, cert)?)?;
    Ok(outputs)
}

/// The decision for a good pick.
fn build_pick(
    alloc: Global,
    options: &Options,
    block: &Block,
    catalog: &Catalog,
    pick: &[u32],
    cert: &Cert,
) -> Result<Decision, NoMemory>
    requires form { list_all is_line block.now.lines ≡ true }
    requires known { AreKnown block.now }
    requires few { counting.nodes cert.now.proof < 2 ^ 32 }
    ensures status { IfOk result (λ decision. decision.status ≡ Status.Built) }
    ensures made { IfOk result (λ decision. (contents : Contents) → ShowsContents catalog.now contents
        → PutsBuilt options.now (board_of block.now contents) pick.now cert.now decision.outputs.items (string_bytes decision.summary)) }
{
    let slots = slot_count(block);
    let list = list_of(alloc, block, comp_value(block, catalog, pick), slots)?;
    let summary = summary_text(alloc, "built", &list, slots, nodes(cert))?;
    Ok(Decision {
        status: Status::Built,
        outputs: built_outputs(alloc, options, &list, cert)?,
        summary,
    })
}

/// The decision where no pick is good.
fn refute_picks(
    alloc: Global,
    options: &Options,
    block: &Block,
    cert: &Cert,
) -> Result<Decision, NoMemory>
    requires form { list_all is_line block.now.lines ≡ true }
    requires known { AreKnown block.now }
    requires few { counting.nodes cert.now.proof < 2 ^ 32 }
    ensures status { IfOk result (λ decision. decision.status ≡ Status.Refuted) }
    ensures made { IfOk result (λ decision. (contents : Contents)
        → PutsRefuted options.now (board_of block.now contents) cert.now decision.outputs.items (string_bytes decision.summary)) }
{
    let slots = slot_count(block);
    let list = list_of(alloc, block, block.name.as_str(), slots)?;
    let summary = summary_text(alloc, "refuted", &list, slots, nodes(cert))?;
    Ok(Decision {
        status: Status::Refuted,
        outputs: refuted_outputs(alloc, options, cert)?,
        summary,
    })
}

/// Decides a block with a catalogue: the first good pick, or that there is none.
pub(crate) fn decide(
    alloc: Global,
    options: &Options,
    block: &Block,
    catalog: &Catalog,
) -> Result<Decision, NoMemory>
    requires form { list_all is_line block.now.lines ≡ true }
    requires known { AreKnown block.now }
    requires ranges { HasRanges block.now }
    requires steps { options.now.steps ≡ 20000 }
    requires made { IsWellMade catalog.now }
    ensures end { IfOk result (λ decision. IsEnd decision.status) }
    ensures decision { IfOk result (λ decision. (contents : Contents) → ShowsContents catalog.now contents
        → IsDecision options.now (board_of block.now contents) decision.status decision.outputs.items (string_bytes decision.summary)) }
{
    let problem = problem_of(alloc, part_of(block.lines.as_slice()), catalog)?;
    let cert = search(alloc, &problem, options.steps)?;
    match &cert.proof {
        Proof::Built { pick, .. } => {
            build_pick(alloc, options, block, catalog, pick.as_slice(), &cert)
        }
        Proof::Tree { .. } => refute_picks(alloc, options, block, &cert),
    }
}
