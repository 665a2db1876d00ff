//! What the connections of projects join, and what they cannot join.
ghost use Rattle.ato_instance_tree.specs.Elaborated.{IsLoaded};
ghost use Rattle.ato_links.specs.Linked.{IsTreeOf};

use crate::projects::program_of;
use ato_base::{Fault, Name, NetList, NoMemory, Place, Refusal};
use ato_connections::joined;
use ato_elab::elaborate;
use ato_files::Program;
use ato_instance_tree::Tree;
use ato_netlists::{netlist, part_rows};
use std::alloc::Global;
use std::test::Fail;

fn put_path(out: &mut String, program: &Program, path: &[Name]) -> Result<(), NoMemory> {
    let mut before = " in ";
    for name in path {
        out.push_str(before)?;
        out.push_str(program.names.text(*name).unwrap_or("?"))?;
        before = ".";
    }
    Ok(())
}

fn put_fault(out: &mut String, program: &Program, fault: &Fault) -> Result<(), NoMemory> {
    let (number, name) = (fault.kind.number(), fault.kind.name());
    write!(out, "F{number} {name} ")?;
    match fault.at {
        Place::Source(span) => write!(out, "{}:{}..{}", span.file.0, span.start, span.end)?,
        Place::Word(word) => write!(out, "word {word}")?,
        Place::Cell { .. } => out.push_str("?")?,
    }
    put_path(out, program, fault.path.as_slice())
}

/// The parts, each with its designator, path, type, value and footprint.
fn put_comps(out: &mut String, list: &NetList) -> Result<(), NoMemory> {
    for comp in list.comps.as_slice() {
        let (designator, path) = (comp.designator.as_str(), comp.path.as_str());
        let (value, footprint) = (comp.value.as_str(), comp.footprint.as_str());
        write!(out, "{designator}={path}:{value}:{footprint} ")?;
    }
    Ok(())
}

/// The nets, each with its name and its pins.
fn put_nets(out: &mut String, list: &NetList) -> Result<(), NoMemory> {
    for net in list.nets.as_slice() {
        write!(out, "| {}", net.name.as_str())?;
        for pin in net.pins.as_slice() {
            write!(out, " {}.{}", pin.comp, pin.label.as_str())?;
        }
        out.push_str(" ")?;
    }
    Ok(())
}

/// The parts and the nets of a tree, or the first fault of its paths and links.
fn put_board(
    out: &mut String,
    alloc: Global,
    program: &Program,
    tree: &Tree,
) -> Result<(), NoMemory>
    requires loaded { IsLoaded program.now }
    requires tree { IsTreeOf program.now tree.now }
{
    match joined(alloc, program, tree) {
        Ok(classes) => {
            let rows = part_rows(alloc, program, tree)?;
            let list = netlist(alloc, program, tree, &classes, rows.as_slice())?;
            put_comps(out, &list)?;
            put_nets(out, &list)
        }
        Err(Refusal::Fault(fault)) => put_fault(out, program, &fault),
        Err(Refusal::NoMemory) => Err(NoMemory),
    }
}

/// What the block `Top` of an entry file gives, in one line.
fn told(alloc: Global, source: &str) -> Result<String, NoMemory> {
    let mut out = String::new(alloc);
    let Some(program) = program_of(alloc, source)? else {
        out.push_str("no program")?;
        return Ok(out);
    };
    match elaborate(alloc, &program, "Top") {
        Ok(tree) => put_board(&mut out, alloc, &program, &tree)?,
        Err(_) => out.push_str("no tree")?,
    }
    Ok(out)
}

/// The least numbers of the classes of the nodes.
fn classes_told(alloc: Global, source: &str) -> Result<String, NoMemory> {
    let mut out = String::new(alloc);
    let Some(program) = program_of(alloc, source)? else {
        return Ok(out);
    };
    if let Ok(tree) = elaborate(alloc, &program, "Top")
        && let Ok(classes) = joined(alloc, &program, &tree)
    {
        let mut before = "";
        for number in classes.of.as_slice() {
            write!(out, "{before}{number}")?;
            before = " ";
        }
    }
    Ok(out)
}

/// Entry files, and the parts and nets of their blocks `Top`.
const BOARDS: &[(&str, &str)] = &[
    (
        "interface P:\n    signal hv\n    signal lv\ninterface Q from P:\n    signal en\ncomponent C:\n    q = new Q\n    q.lv ~ pin 1\n    q.hv ~ pin 2\n    q.en ~ pin 3\nmodule Top:\n    p = new P\n    c = new C\n    c.q ~ p\n",
        "U1=c:C: | p.lv 0.1 | p.hv 0.2 | c.q.en 0.3 ",
    ),
    (
        "interface P:\n    signal hv\n    signal lv\ninterface Q from P:\n    signal en\ncomponent C:\n    q = new Q\n    q.lv ~ pin 1\n    q.hv ~ pin 2\n    q.en ~ pin 3\nmodule Top:\n    p = new P\n    c = new C\n    p ~ c.q\n",
        "U1=c:C: | p.lv 0.1 | p.hv 0.2 | c.q.en 0.3 ",
    ),
    (
        "import Electrical\ncomponent C:\n    e = new Electrical\n    e ~ pin 1\n    signal t ~ pin 2\nmodule Top:\n    c = new C\n    signal s\n    s ~ c.e\n    c.t ~ c.e.line\n",
        "U1=c:C: | s 0.1 0.2 ",
    ),
    (
        "import Electrical\ninterface D from Electrical: signal d\ncomponent C:\n    d = new D\n    d.d ~ pin 1\n    d ~ pin 2\n    e = new Electrical\n    e ~ pin 3\nmodule Top:\n    c = new C\n    c.d ~ c.e\n",
        "U1=c:C: | c.d.d 0.1 | c.d.line 0.2 0.3 ",
    ),
    (
        "import Electrical\ncomponent C:\n    e = new Electrical\n    e ~ e.line\n    pin 1 ~ e\n    e ~ signal t\nmodule Top:\n    c = new C\n",
        "U1=c:C: | c.t 0.1 ",
    ),
    (
        "component C:\n    pin 1\n    pin 2\nmodule Top:\n    c = new C\n    c.1 ~ c.2\n",
        "U1=c:C: | c:1 0.1 0.2 ",
    ),
    (
        "component C:\n    pin 1\n    pin 2\nmodule Top:\n    c = new C\n    d = new C\n    c.2 ~ d.1\n",
        "U1=c:C: U2=d:C: | c:1 0.1 | c:2 0.2 1.1 | d:2 1.2 ",
    ),
    (
        "component C:\n    pin 1\n    pin 2\nmodule Top:\n    c = new C\n    d = new C\n    signal b\n    signal a\n    a ~ b\n    b ~ c.1\n    d.1 ~ a\n    c.2 ~ d.2\n",
        "U1=c:C: U2=d:C: | b 0.1 1.1 | c:2 0.2 1.2 ",
    ),
    (
        "component Top:\n    pin 1\n    signal s ~ pin A\n",
        "U1=:Top: | :1 0.1 | s 0.A ",
    ),
    ("module Top:\n    signal s\n    signal t\n    s ~ t\n", ""),
    (
        "interface I:\n    signal a\ninterface J:\n    i = new I\n    signal b\ncomponent C:\n    j = new J\n    j.b ~ pin 1\n    j.i.a ~ pin 2\nmodule M:\n    c = new C\nmodule Top:\n    m = new M\n    n = new M\n    m.c.j ~ n.c.j\n",
        "U1=m.c:C: U2=n.c:C: | m.c.j.b 0.1 1.1 | m.c.j.i.a 0.2 1.2 ",
    ),
    (
        "interface I:\n    signal a\ninterface J from I:\n    signal b\ninterface O:\n    i = new I\ncomponent C:\n    o = new O\n    o.i -> J\n    o.i.a ~ pin 1\n    o.i.b ~ pin 2\nmodule Top:\n    c = new C\n    x = new O\n    x ~ c.o\n",
        "U1=c:C: | x.i.a 0.1 | c.o.i.b 0.2 ",
    ),
    (
        "interface P:\n    signal a\n    signal b\ninterface Q from P:\n    signal c\ncomponent C:\n    p = new P\n    q = new Q\n    p.b ~ pin 1\n    q.c ~ pin 2\n    q.a ~ pin 3\n    p ~ q\nmodule Top:\n    c = new C\n",
        "U1=c:C: | c.p.b 0.1 | c.q.c 0.2 | c.p.a 0.3 ",
    ),
    (
        "import Resistor\nimport LED\ncomponent C:\n    pin 1\n    pin 2\nmodule Top:\n    r = new Resistor\n    c = new C\n    l = new LED\n    q = new Resistor\n    d = new C\n",
        "R1=r:: U1=c:C: D1=l:: R2=q:: U2=d:C: | r.p1 0.1 | r.p2 0.2 | c:1 1.1 | c:2 1.2 | l.anode 2.1 | l.cathode 2.2 | q.p1 3.1 | q.p2 3.2 | d:1 4.1 | d:2 4.2 ",
    ),
    (
        "component S:\n    kind = \"resistor\"\ncomponent N: pass\ncomponent F:\n    footprint = \"SO8\"\n    part = \"X\"\n    designator_prefix = \"IC\"\n    pin 1\nmodule K:\n    kind = \"resistor\"\nmodule Top:\n    s = new S\n    n = new N\n    f = new F\n    k = new K\n    g = new F\n    g.designator_prefix = \"U\"\n    g.footprint = \"DIP\"\n",
        "U1=s:: IC1=f:F:SO8 U2=g:F:DIP | f:1 1.1 | g:1 2.1 ",
    ),
    (
        "component A:\n    pin 1\n    b = new B\ncomponent B:\n    pin 1\n    pin X\nmodule Top:\n    a = new A\n    a.1 ~ a.b.1\n",
        "U1=a:A: U2=a.b:B: | a:1 0.1 1.1 | a.b:X 1.X ",
    ),
    (
        "component C:\n    pin \"A,B\"\n    pin \"Ω\" ~ signal é\nmodule Top:\n    größe = new C\n",
        "U1=größe:C: | größe:A,B 0.A,B | größe.é 0.Ω ",
    ),
    (
        "component A:\n    pin 1\ncomponent B from A: pass\nmodule Top:\n    a = new A\n    a -> B\n",
        "U1=a:B: | a:1 0.1 ",
    ),
];

/// Entry files, and the first fault of paths and links of their blocks `Top`.
const FAULTS: &[(&str, &str)] = &[
    (
        "import Resistor\nmodule Top:\n    r = new Resistor\n    signal s\n    s ~ r\n",
        "F19 CannotConnect 1:66..67",
    ),
    (
        "import Resistor\nmodule Top:\n    r = new Resistor\n    signal s\n    r ~ s\n",
        "F19 CannotConnect 1:66..67",
    ),
    (
        "import Resistor\nmodule Top:\n    r = new Resistor\n    signal s ~ r\n",
        "F19 CannotConnect 1:53..59",
    ),
    (
        "import Resistor\ncomponent Top:\n    r = new Resistor\n    pin 1 ~ r\n",
        "F19 CannotConnect 1:56..59",
    ),
    (
        "import Resistor\nmodule Top:\n    r = new Resistor\n    r ~ signal t\n",
        "F19 CannotConnect 1:53..54",
    ),
    (
        "import Resistor\nmodule Top:\n    r = new Resistor\n    r ~ r\n",
        "F19 CannotConnect 1:53..54",
    ),
    (
        "import Resistor\nmodule Top:\n    r = new Resistor\n    q = new Resistor\n    r ~ q\n",
        "F19 CannotConnect 1:74..75",
    ),
    (
        "module M: signal s\nmodule Top:\n    m = new M\n    n = new M\n    m ~ n\n",
        "F19 CannotConnect 1:63..64",
    ),
    (
        "interface P: signal a\ninterface Q from P: signal b\ninterface R from P: signal c\nmodule Top:\n    q = new Q\n    r = new R\n    q ~ r\n",
        "F19 CannotConnect 1:124..125",
    ),
    (
        "interface P: signal a\ninterface Q from P: signal b\ninterface R from P: signal c\nmodule Top:\n    p = new P\n    signal s\n    s ~ p\n",
        "F19 CannotConnect 1:123..124",
    ),
    (
        "interface P: signal a\ninterface Q from P: signal b\ninterface R from P: signal c\nmodule Top:\n    p = new P\n    signal s\n    p ~ s\n",
        "F19 CannotConnect 1:123..124",
    ),
    (
        "interface P: signal a\ninterface Q from P: signal b\ninterface R from P: signal c\nmodule Top:\n    p = new P\n    p ~ p.a\n",
        "F19 CannotConnect 1:110..111",
    ),
    (
        "interface P: signal a\ninterface Q from P: signal b\ninterface R from P: signal c\nmodule Top:\n    p = new P\n    p.a ~ p\n",
        "F19 CannotConnect 1:110..111",
    ),
    (
        "interface P: signal a\ninterface O: signal a\nmodule Top:\n    p = new P\n    o = new O\n    p ~ o\n",
        "F19 CannotConnect 1:88..89",
    ),
    (
        "interface P: signal a\ninterface Q from P: signal b\ninterface R from P: signal c\nimport Resistor\nmodule Top:\n    p = new P\n    r = new Resistor\n    p ~ r\n",
        "F19 CannotConnect 1:147..148",
    ),
    (
        "interface P: signal a\ninterface Q from P: signal b\ninterface R from P: signal c\nmodule Q2: p = new P\nmodule Top:\n    m = new Q2\n    m ~ m.p\n",
        "F19 CannotConnect 1:132..133",
    ),
    (
        "interface P: signal a\ninterface Q from P: signal b\ninterface R from P: signal c\ninterface O:\n    i = new P\n    signal z\nmodule Top:\n    x = new O\n    y = new O\n    x.i -> Q\n    y.i -> R\n    x ~ y\n",
        "F19 CannotConnect 1:190..191",
    ),
    (
        "interface P: signal a\ninterface Q from P: signal b\ninterface R from P: signal c\ninterface O:\n    i = new P\n    signal z\ninterface OO: o = new O\nmodule Top:\n    x = new OO\n    y = new OO\n    x.o.i -> Q\n    y.o.i -> R\n    x ~ y\n",
        "F19 CannotConnect 1:220..221",
    ),
    (
        "import Resistor\nmodule M:\n    r = new Resistor\n    signal s\n    s ~ r\nmodule Top:\n    m = new M\n",
        "F19 CannotConnect 1:64..65 in m",
    ),
    (
        "import Resistor\nmodule M:\n    r = new Resistor\n    r ~ r\nmodule Top:\n    m = new M\n    signal s\n    s ~ m\n",
        "F19 CannotConnect 1:100..101",
    ),
    (
        "import Resistor\nmodule M:\n    r = new Resistor\n    r ~ r\n    r ~ r\nmodule N: m = new M\nmodule Top:\n    n = new N\n",
        "F19 CannotConnect 1:51..52 in n.m",
    ),
    (
        "module Top:\n    signal s\n    x ~ s\n    s ~ y\n",
        "F15 NoSuchMember 1:29..30",
    ),
    (
        "import Resistor\nmodule Top:\n    r = new Resistor\n    r ~ r\n    x ~ r\n",
        "F19 CannotConnect 1:53..54",
    ),
    (
        "import Resistor\nmodule Top:\n    r = new Resistor\n    x ~ r\n    r ~ r\n",
        "F15 NoSuchMember 1:53..54",
    ),
    (
        "import Resistor\nmodule Top:\n    r = new Resistor\n    r ~ x\n    r ~ r\n",
        "F15 NoSuchMember 1:57..58",
    ),
    (
        "import Resistor\nmodule M:\n    r = new Resistor\n    r ~ r\nmodule Top:\n    m = new M\n    m ~ x\n",
        "F15 NoSuchMember 1:91..92",
    ),
    (
        "module Top:\n    v: voltage\n    signal s\n    v ~ s\n",
        "F18 WrongKind 1:44..45",
    ),
    (
        "module Top:\n    v: voltage\n    w: voltage\n    v ~ w\n",
        "F18 WrongKind 1:46..47",
    ),
    (
        "import Electrical\nimport Resistor\nmodule Top:\n    e = new Electrical\n    r = new Resistor\n    e ~ r\n",
        "F19 CannotConnect 1:94..95",
    ),
    (
        "import Electrical\ninterface P: signal a\ninterface Q from P: signal b\ninterface R from P: signal c\nmodule Top:\n    e = new Electrical\n    p = new P\n    e ~ p\n",
        "F19 CannotConnect 1:151..152",
    ),
    (
        "import Electrical\ninterface D from Electrical: signal d\ninterface F from Electrical: signal f\nmodule Top:\n    d = new D\n    f = new F\n    d ~ f\n",
        "F19 CannotConnect 1:138..139",
    ),
];

/// Entry files, and the classes of the nodes of their blocks `Top`.
const CLASSES: &[(&str, &str)] = &[
    (
        "interface P:\n    v: voltage\n    signal s\nmodule Top:\n    a = new P\n    b = new P\n    a ~ b\n",
        "0 1 2 3 4 2 3",
    ),
    (
        "interface P:\n    v: voltage\n    i = new I\ninterface I:\n    w: current\nmodule Top:\n    a = new P\n    b = new P\n    c = new P\n    c ~ b\n    a ~ c\n",
        "0 1 2 3 4 5 2 7 4 9 2 11 4",
    ),
    (
        "interface P:\n    signal s\nmodule Top:\n    a = new P\n    a ~ a\n",
        "0 1 2",
    ),
    (
        "import Electrical\nmodule Top:\n    r = new Electrical\n    signal s\n    s ~ r\n",
        "0 1 2 2",
    ),
    (
        "import Electrical\nmodule Top:\n    e = new Electrical\n    f = new Electrical\n    e ~ f\n",
        "0 1 2 3 2",
    ),
    ("module Top: pass\n", "0"),
    (
        "module Top:\n    signal a\n    signal b\n    signal c\n    c ~ b\n    b ~ c\n",
        "0 1 2 2",
    ),
    (
        "module Top:\n    signal a\n    signal b ~ a\n    c = new M\n    c.x ~ b\nmodule M:\n    signal x\n    signal y ~ x\n",
        "0 1 1 3 1 1",
    ),
];

#[test]
fn boards_have_their_nets(rt: HostRuntime) -> Result<(), Fail> {
    for (source, want) in BOARDS {
        let line = told(rt.alloc(), source)?;
        assert!(rt; line.as_str() == *want, "{source}{}", line.as_str());
    }
    Ok(())
}

#[test]
fn first_faults_are_told(rt: HostRuntime) -> Result<(), Fail> {
    for (source, want) in FAULTS {
        let line = told(rt.alloc(), source)?;
        assert!(rt; line.as_str() == *want, "{source}{}", line.as_str());
    }
    Ok(())
}

#[test]
fn nodes_have_their_classes(rt: HostRuntime) -> Result<(), Fail> {
    for (source, want) in CLASSES {
        let line = classes_told(rt.alloc(), source)?;
        assert!(rt; line.as_str() == *want, "{source}{}", line.as_str());
    }
    Ok(())
}
