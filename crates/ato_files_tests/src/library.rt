//! The library, file 0 of each program, and the trees of files.
use crate::answers::{ENTRY, loaded, put_block};
use crate::places::are_places;
use crate::shelves::{Asked, Texts, files_of};
use ato_ast::{File, flat};
use ato_base::{FileId, Name, NameTable, NoMemory, TokenKind};
use ato_files::{LoadFault, Program, SourceFile};
use ato_lexer::lex;
use ato_parser::{ends_once, parse};
use std::alloc::Global;
use std::test::Fail;

/// The text of the library.
pub(crate) const LIBRARY: &str = "interface Electrical:
    signal line
interface ElectricPower:
    signal hv
    signal lv
    signal vcc ~ hv
    signal gnd ~ lv
    voltage: V
    max_current: A
interface ElectricLogic:
    signal line
    reference = new ElectricPower
interface I2C:
    scl = new ElectricLogic
    sda = new ElectricLogic
    frequency: Hz
interface SPI:
    sclk = new ElectricLogic
    mosi = new ElectricLogic
    miso = new ElectricLogic
    frequency: Hz
component Resistor:
    kind = \"resistor\"
    designator_prefix = \"R\"
    signal p1 ~ pin 1
    signal p2 ~ pin 2
    resistance: ohm
    max_power: W
    max_voltage: V
component Capacitor:
    kind = \"capacitor\"
    designator_prefix = \"C\"
    signal p1 ~ pin 1
    signal p2 ~ pin 2
    capacitance: F
    max_voltage: V
component Inductor:
    kind = \"inductor\"
    designator_prefix = \"L\"
    signal p1 ~ pin 1
    signal p2 ~ pin 2
    inductance: H
    max_current: A
component Diode:
    kind = \"diode\"
    designator_prefix = \"D\"
    signal anode ~ pin 1
    signal cathode ~ pin 2
    forward_voltage: V
    max_current: A
component LED from Diode:
    kind = \"led\"
";

/// The library's blocks.
const BLOCKS: &str = " 0.0(0) 0.1(1) 0.2(2) 0.3(3) 0.4(4) 0.5(5) 0.6(6) 0.7(7) 0.8(8) 0.9(8 9)";

/// Their names, in this order.
const NAMES: &[&str] = &[
    "Electrical",
    "ElectricPower",
    "ElectricLogic",
    "I2C",
    "SPI",
    "Resistor",
    "Capacitor",
    "Inductor",
    "Diode",
    "LED",
];

/// The table of names behind an entry without names, in the order of their first mentions.
const TABLE: &str =
    "abs max min Electrical line ElectricPower hv lv vcc gnd voltage V max_current A \
ElectricLogic reference I2C scl sda frequency Hz SPI sclk mosi miso Resistor kind designator_prefix p1 p2 \
resistance ohm max_power W max_voltage Capacitor capacitance F Inductor inductance H Diode anode cathode \
forward_voltage LED";

/// The program of files.
fn program_of(alloc: Global, files: &[(&str, &str)]) -> Result<Program, LoadFault> {
    let mut shelf = Asked::new(alloc, files_of(alloc, files)?);
    loaded(alloc, &mut shelf, ENTRY)
}

/// The blocks of a program, in one line.
fn blocks_of(alloc: Global, program: &Program) -> Result<String, NoMemory> {
    let mut out = String::new(alloc);
    for block in program.blocks.as_slice() {
        put_block(&mut out, block)?;
    }
    Ok(out)
}

/// The first names of a table, with blanks between, up to the first number without a name.
fn names_of(alloc: Global, names: &NameTable) -> Result<String, NoMemory> {
    let mut out = String::new(alloc);
    for number in 0..1_000 {
        let Some(text) = names.text(Name(number)) else {
            return Ok(out);
        };
        out.push_str(if number == 0 { "" } else { " " })?;
        out.push_str(text)?;
    }
    Ok(out)
}

/// The number of a block of the library by its name.
fn number_of(program: &Program, name: &str) -> Option<u32> {
    program.find_block(FileId(0), name)
}

#[test]
fn the_library_is_file_0(rt: HostRuntime) -> Result<(), Fail> {
    let alloc = rt.alloc();
    let program = program_of(alloc, &[("main.ato", "")])?;
    let files = program.files.as_slice();
    assert_eq!(rt; files.len(), 2);
    assert!(rt; files[0].name.as_str() == "<library>");
    assert!(rt; files[0].bytes.as_slice() == LIBRARY.as_bytes());
    assert_eq!(rt; blocks_of(alloc, &program)?.as_str(), BLOCKS);
    assert_eq!(rt; names_of(alloc, &program.names)?.as_str(), TABLE);
    for (number, name) in NAMES.iter().enumerate() {
        let found = number_of(&program, name);
        assert!(rt; found == Some(number.min(100) as u32), "{name}");
    }
    Ok(())
}

/// The tree of bytes, over a table of names. Nothing that is tried here is too long or has a fault.
fn tree_of(
    alloc: Global,
    bytes: &[u8],
    file: u32,
    names: &mut NameTable,
) -> Result<File, NoMemory> {
    if bytes.len() >= 1_000_000 {
        return Err(NoMemory);
    }
    let Ok(tokens) = lex(alloc, bytes, FileId(file), names) else {
        return Err(NoMemory);
    };
    if !ends_once(tokens.as_slice()) {
        return Err(NoMemory);
    }
    match parse(alloc, tokens.as_slice()) {
        Ok(tree) => Ok(tree),
        Err(_) => Err(NoMemory),
    }
}

/// Whether lists of kinds are equal.
fn are_kinds(one: &[TokenKind], other: &[TokenKind]) -> bool {
    for (a, b) in one.iter().zip(other.iter()) {
        if *a != *b {
            return false;
        }
    }
    one.len() == other.len()
}

/// Whether trees have the same tokens and the same places.
fn are_equal(alloc: Global, one: &File, other: &File) -> Result<bool, NoMemory> {
    let kinds = flat(alloc, one)?;
    let others = flat(alloc, other)?;
    Ok(are_kinds(kinds.as_slice(), others.as_slice()) && are_places(alloc, one, other)?)
}

/// Whether files have the trees of their bytes, over one table of names that the files fill in their order.
fn have_trees(
    alloc: Global,
    files: &[SourceFile],
    names: &mut NameTable,
) -> Result<bool, NoMemory> {
    let mut number: u32 = 0;
    for file in files {
        let tree = tree_of(alloc, file.bytes.as_slice(), number, names)?;
        if !are_equal(alloc, &tree, &file.tree)? {
            return Ok(false);
        }
        number = number.saturating_add(1);
    }
    Ok(true)
}

/// Files of all forms.
const FILES: Texts = &[
    (
        "main.ato",
        "# a board
from 'lamp.ato' import Lamp, Plug; import Red from \"red.ato\"; pass;
import ElectricPower, Resistor
'''Two
lines.'''
module Board from Lamp:
    \"A board.\"; pass
    power = new ElectricPower; led -> Red
    power ~ plug.power; power.hv ~ r.p1.1
    signal a ~ signal b; a.b ~ signal c
    x: V = -5V to 3.3V; y: A; z.max = (x - 2) / min(y, abs(z)) ** 2
    assert x / y within 1kohm +/- 5% | 2ohm; assert y > -1e-3 * max(x, 7)
    kind = 'board'; flag = True; r.flag = False;
",
    ),
    (
        "lamp.ato",
        "import Resistor, LED
module Lamp:
    r = new Resistor; led = new LED
    plug = new Plug
interface Plug: pass
import Sky from 'plugs/sky.ato'
",
    ),
    (
        "red.ato",
        "import LED; import Resistor
component Red from LED:
    pin 3 ~ pin 'heat sink'; pin shield ~ signal s; t ~ pin 007
",
    ),
    (
        "plugs/sky.ato",
        "import ElectricPower
interface Sky: power = new ElectricPower; signal earth
",
    ),
];

#[test]
fn files_have_their_trees(rt: HostRuntime) -> Result<(), Fail> {
    let alloc = rt.alloc();
    let program = program_of(alloc, FILES)?;
    assert_eq!(rt; program.files.as_slice().len(), 5);
    let mut names = NameTable::new(alloc)?;
    assert!(rt; have_trees(alloc, program.files.as_slice(), &mut names)?);
    assert_eq!(rt;
        names_of(alloc, &program.names)?.as_str(),
        names_of(alloc, &names)?.as_str()
    );
    Ok(())
}
