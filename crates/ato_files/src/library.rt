//! The library, which is file 0 of each project.
ghost use Rattle.std.specs.Prelude.{◌≡◌, [], ◌∷◌, IfOk, codes};
ghost use Rattle.ato_files.specs.Library.{library_text};
ghost use Rattle.ato_files.specs.Loading.{IsStart};
ghost use Rattle.ato_files.specs.Walks.{started};

use crate::SourceFile;
use crate::reading::read_tree;
use ato_base::{FileId, List, NameTable, NoMemory, Refusal, Text};
use std::alloc::Global;

/// The text of the library.
#[tactic(auto, unfolding(crate::specs::Library::library_text))]
fn text() -> &'static str
    ensures { result.now ≡ library_text }
{
    "interface Electrical:
    signal line
interface ElectricPower:
    signal hv
    signal lv
    signal vcc ~ hv
    signal gnd ~ lv
    voltage: V
    max_current: A
interface ElectricLogic:
    signal line
    reference = new ElectricPower
interface I2C:
    scl = new ElectricLogic
    sda = new ElectricLogic
    frequency: Hz
interface SPI:
    sclk = new ElectricLogic
    mosi = new ElectricLogic
    miso = new ElectricLogic
    frequency: Hz
component Resistor:
    kind = \"resistor\"
    designator_prefix = \"R\"
    signal p1 ~ pin 1
    signal p2 ~ pin 2
    resistance: ohm
    max_power: W
    max_voltage: V
component Capacitor:
    kind = \"capacitor\"
    designator_prefix = \"C\"
    signal p1 ~ pin 1
    signal p2 ~ pin 2
    capacitance: F
    max_voltage: V
component Inductor:
    kind = \"inductor\"
    designator_prefix = \"L\"
    signal p1 ~ pin 1
    signal p2 ~ pin 2
    inductance: H
    max_current: A
component Diode:
    kind = \"diode\"
    designator_prefix = \"D\"
    signal anode ~ pin 1
    signal cathode ~ pin 2
    forward_voltage: V
    max_current: A
component LED from Diode:
    kind = \"led\"
"
}

/// The bytes of the library.
fn bytes(alloc: Global) -> Result<List<u8>, NoMemory>
    ensures { IfOk result (λ bytes. bytes ≡ library_text) }
{
    let mut bytes = Vec::new(alloc);
    bytes.extend_from_slice(text().as_bytes())?;
    Ok(List::from_vec(bytes))
}

/// The library, whose names the table gets.
pub(crate) fn library(alloc: Global, names: &mut NameTable) -> Result<SourceFile, NoMemory>
    requires { names.old ≡ codes "abs" ∷ codes "max" ∷ codes "min" ∷ [] }
    ensures { IfOk result (λ file. IsStart (started names.new file)) }
{
    let name = Text::copy(alloc, "<library>")?;
    let bytes = bytes(alloc)?;
    match read_tree(alloc, bytes.as_slice(), FileId(0), names) {
        Ok(tree) => Ok(SourceFile { name, bytes, tree }),
        Err(Refusal::NoMemory) => Err(NoMemory),
        Err(Refusal::Fault(_)) => unreachable!(),
    }
}
