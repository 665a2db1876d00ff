//! The trees of projects, and their first faults.
use crate::projects::program_of;
use ato_base::{Fault, Name, NoMemory, Place, Refusal};
use ato_elab::elaborate;
use ato_files::Program;
use ato_instance_tree::{Late, NodeKind, Tree};
use std::alloc::Global;
use std::test::Fail;

fn put_path(out: &mut String, program: &Program, path: &[Name]) -> Result<(), NoMemory> {
    let mut before = " in ";
    for name in path {
        out.push_str(before)?;
        out.push_str(program.names.text(*name).unwrap_or("?"))?;
        before = ".";
    }
    Ok(())
}

fn put_fault(out: &mut String, program: &Program, fault: &Fault) -> Result<(), NoMemory> {
    let (number, name) = (fault.kind.number(), fault.kind.name());
    write!(out, "F{number} {name} ")?;
    match fault.at {
        Place::Source(span) => write!(out, "{}:{}..{}", span.file.0, span.start, span.end)?,
        Place::Word(word) => write!(out, "word {word}")?,
        Place::Cell { .. } => out.push_str("?")?,
    }
    put_path(out, program, fault.path.as_slice())
}

fn put_late(out: &mut String, program: &Program, late: &Late) -> Result<(), NoMemory> {
    write!(out, "{}: ", late.occurrence)?;
    put_fault(out, program, &late.fault)
}

fn letter(kind: NodeKind) -> &'static str {
    match kind {
        NodeKind::Module => "M",
        NodeKind::Component => "C",
        NodeKind::Interface => "I",
        NodeKind::Signal => "s",
        NodeKind::Pin => "/",
        NodeKind::Param => "v",
    }
}

/// The nodes, each with its parent's number, its kind, its name and the number of its type.
fn put_nodes(out: &mut String, tree: &Tree) -> Result<(), NoMemory> {
    for node in tree.nodes.as_slice() {
        out.push_str(" ")?;
        if let Some(parent) = node.parent {
            write!(out, "{parent}")?;
        }
        write!(out, "{}{}", letter(node.kind), node.name.as_str())?;
        if let Some(block) = node.block {
            write!(out, "={block}")?;
        }
    }
    Ok(())
}

/// The occurrences, each with its instance, block, line and part, and with the names that it assigns for good.
fn put_occurrences(out: &mut String, tree: &Tree) -> Result<(), NoMemory> {
    for (number, at) in tree.occurrences.as_slice().iter().enumerate() {
        write!(out, " {}:{}.{}.{}", at.node, at.block, at.line, at.part)?;
        for entry in tree.effective.as_slice() {
            if entry.by as usize == number {
                write!(out, ">{}{}", entry.node, entry.name.as_str())?;
            }
        }
    }
    Ok(())
}

fn put_tree(out: &mut String, program: &Program, tree: &Tree) -> Result<(), NoMemory> {
    match &tree.first {
        Some(late) => put_late(out, program, late),
        None => {
            out.push_str("nodes")?;
            put_nodes(out, tree)?;
            out.push_str(" |")?;
            put_occurrences(out, tree)
        }
    }
}

/// What the block `Top` of an entry file gives, in one line.
fn told(alloc: Global, source: &str) -> Result<String, NoMemory> {
    let mut out = String::new(alloc);
    let Some(program) = program_of(alloc, source)? else {
        out.push_str("no program")?;
        return Ok(out);
    };
    match elaborate(alloc, &program, "Top") {
        Ok(tree) => put_tree(&mut out, &program, &tree)?,
        Err(Refusal::Fault(fault)) => put_fault(&mut out, &program, &fault)?,
        Err(Refusal::NoMemory) => return Err(NoMemory),
    }
    Ok(out)
}

/// Entry files whose block `Top` has a fault of the tree.
const TREE_FAULTS: &[(&str, &str)] = &[
    ("module A: pass\n", "F11 NameUnknown word 1"),
    ("import LED\nmodule A: pass\n", "F11 NameUnknown word 1"),
    (
        "module T: pass\nmodule Topp: pass\n",
        "F11 NameUnknown word 1",
    ),
    (
        "module Top:\n    t = new Top\n",
        "F14 NestLoop 1:24..27 in t",
    ),
    (
        "module B:\n    t = new Top\nmodule Top:\n    b = new B\n",
        "F14 NestLoop 1:22..25 in b.t",
    ),
    (
        "module B0: b = new B1\nmodule B1: b = new B2\nmodule B2: b = new B3\nmodule B3: b = new B4\nmodule B4: b = new B5\nmodule B5: b = new B6\nmodule B6: b = new B7\nmodule B7: b = new B8\nmodule B8: b = new B9\nmodule B9: b = new Top\nmodule Top: b = new B0\n",
        "F14 NestLoop 1:217..220 in b.b.b.b.b.b.b.b.b.b.b",
    ),
    (
        "module A: pass\nmodule Top from A:\n    a = new A\n    a -> Top\n",
        "F14 NestLoop 1:46..47 in a",
    ),
    (
        "module A: pass\nmodule B: a = new A\nmodule Top:\n    x = new B\n    y = new B\n    t = new Top\n",
        "F14 NestLoop 1:87..90 in t",
    ),
    (
        "component C:\n    signal s ~ pin 1\ncomponent A from C: pass\ncomponent B from A: pass\ncomponent D from C: pass\nmodule M:\n    r = new C\n    r -> A\nmodule Top:\n    m = new M\n    m.r -> D\n",
        "F16 NotSpecial 1:181..182 in m.r",
    ),
    (
        "component C:\n    signal s ~ pin 1\ncomponent A from C: pass\ncomponent B from A: pass\ncomponent D from C: pass\nmodule M:\n    r = new C\n    r -> A\nmodule Top:\n    m = new M\n    m.r -> C\n",
        "F16 NotSpecial 1:181..182 in m.r",
    ),
    (
        "module A: pass\nmodule B: pass\nmodule Top:\n    a = new A\n    a -> B\n",
        "F16 NotSpecial 1:65..66 in a",
    ),
    (
        "module A: pass\nmodule B from A: pass\nmodule Top:\n    a = new B\n    a -> A\n",
        "F16 NotSpecial 1:72..73 in a",
    ),
    (
        "module A: pass\nmodule Top:\n    a = new A\n    a -> Top\n",
        "F16 NotSpecial 1:50..53 in a",
    ),
    (
        "module A: pass\nmodule B: pass\nmodule Top:\n    t = new Top\n    a = new A\n    a -> B\n",
        "F14 NestLoop 1:54..57 in t",
    ),
    (
        "module A: pass\nmodule B: pass\nmodule Top:\n    a = new A\n    t = new Top\n    a -> B\n",
        "F16 NotSpecial 1:81..82 in a",
    ),
    (
        "module A: pass\nmodule B: pass\nmodule M:\n    x = new A\n    x -> B\nmodule Top:\n    m = new M\n    t = new Top\n",
        "F16 NotSpecial 1:63..64 in m.x",
    ),
    (
        "module I: pass\nmodule K: pass\nmodule A: pass\nmodule B from A: i = new I\nmodule Top:\n    x = new A\n    x -> B\n    x.i -> K\n",
        "F16 NotSpecial 1:120..121 in x.i",
    ),
];

/// Entry files whose block `Top` has a fault of paths, with the number of its occurrence.
const PATH_FAULTS: &[(&str, &str)] = &[
    ("module Top:\n    a ~ b\n", "0: F15 NoSuchMember 1:16..17"),
    (
        "module Top:\n    signal a\n    a ~ b\n",
        "1: F15 NoSuchMember 1:33..34",
    ),
    (
        "import Resistor\nmodule Top:\n    r = new Resistor\n    signal out\n    r.p3 ~ out\n",
        "2: F15 NoSuchMember 1:70..72",
    ),
    (
        "import Resistor\nmodule Top:\n    r = new Resistor\n    r.p1.x ~ r.p2\n",
        "1: F15 NoSuchMember 1:58..59",
    ),
    (
        "import Resistor\nmodule Top:\n    r = new Resistor\n    r.1 ~ r.3\n",
        "1: F15 NoSuchMember 1:61..62",
    ),
    (
        "import Resistor\nmodule Top:\n    r = new Resistor\n    r.p1.1 ~ r.2\n",
        "1: F15 NoSuchMember 1:58..59",
    ),
    ("module Top:\n    x.1 ~ y\n", "0: F15 NoSuchMember 1:16..17"),
    (
        "module M:\n    signal s\n    s ~ t\nmodule Top:\n    m = new M\n",
        "2: F15 NoSuchMember 1:31..32 in m",
    ),
    (
        "module M:\n    t ~ t\nmodule Top:\n    m = new M\n    u ~ u\n",
        "1: F15 NoSuchMember 1:50..51",
    ),
    (
        "module M:\n    t ~ t\nmodule N:\n    u ~ u\nmodule Top:\n    n = new M\n    m = new N\n",
        "2: F15 NoSuchMember 1:14..15 in n",
    ),
    (
        "module A:\n    x ~ x\nmodule Top from A:\n    y ~ y\n",
        "0: F15 NoSuchMember 1:14..15",
    ),
    (
        "module A: pass\nmodule Top:\n    a -> A\n",
        "0: F15 NoSuchMember 1:31..32",
    ),
    (
        "module A: pass\nmodule Top:\n    signal a\n    a -> A\n",
        "1: F18 WrongKind 1:44..45",
    ),
    (
        "import Resistor\nmodule Top:\n    r = new Resistor\n    r.resistance -> Resistor\n",
        "1: F18 WrongKind 1:55..65",
    ),
    (
        "import Resistor\nmodule Top:\n    r = new Resistor\n    r.1 -> Resistor\n",
        "1: F18 WrongKind 1:53..54",
    ),
    (
        "import Resistor\nmodule Top:\n    r = new Resistor\n    r.9 -> Resistor\n",
        "1: F15 NoSuchMember 1:55..56",
    ),
    (
        "module Top:\n    v: V\n    signal a\n    a ~ v\n",
        "2: F18 WrongKind 1:42..43",
    ),
    (
        "module Top:\n    v: V\n    signal a ~ v\n",
        "1: F18 WrongKind 1:36..37",
    ),
    (
        "component Top:\n    v: V\n    pin 1 ~ v\n",
        "1: F18 WrongKind 1:36..37",
    ),
    (
        "module Top:\n    signal a\n    a = 'x'\n",
        "1: F18 WrongKind 1:29..30",
    ),
    (
        "module Top:\n    v: V\n    v = 'x'\n",
        "1: F18 WrongKind 1:25..26",
    ),
    (
        "module Top:\n    v: V\n    v = True\n",
        "1: F18 WrongKind 1:25..26",
    ),
    (
        "import Resistor\nmodule Top:\n    r = new Resistor\n    r = 'x'\n",
        "1: F18 WrongKind 1:53..54",
    ),
    (
        "import Resistor\nmodule Top:\n    r = new Resistor\n    r.1 = 'x'\n",
        "1: F18 WrongKind 1:53..54",
    ),
    (
        "module Top:\n    x.y = 'x'\n",
        "0: F15 NoSuchMember 1:16..17",
    ),
    (
        "module Top:\n    signal a\n    a.y = 'x'\n",
        "1: F15 NoSuchMember 1:31..32",
    ),
    ("module Top:\n    v: V = 'x'\n", "0: F18 WrongKind 1:16..17"),
    (
        "module Top:\n    v: V = False\n",
        "0: F18 WrongKind 1:16..17",
    ),
    (
        "module Top:\n    signal a\n    a = 5V\n",
        "1: F18 WrongKind 1:29..30",
    ),
    (
        "import Resistor\nmodule Top:\n    r = new Resistor\n    r = 5V\n",
        "1: F18 WrongKind 1:53..54",
    ),
    (
        "import Resistor\nmodule Top:\n    r = new Resistor\n    r.p1 = 5V\n",
        "1: F18 WrongKind 1:55..57",
    ),
    (
        "import Resistor\nmodule Top:\n    r = new Resistor\n    r.1 = 5V\n",
        "1: F18 WrongKind 1:53..54",
    ),
    (
        "import Resistor\nmodule Top:\n    r = new Resistor\n    r.x = 5V\n",
        "1: F15 NoSuchMember 1:55..56",
    ),
    (
        "module Top:\n    v = w + 1V\n",
        "0: F15 NoSuchMember 1:20..21",
    ),
    (
        "module Top:\n    signal w\n    v = 1V + (w)\n",
        "1: F18 WrongKind 1:39..40",
    ),
    (
        "module Top:\n    w: V\n    v = min(w, abs(w * 2), x)\n",
        "1: F15 NoSuchMember 1:48..49",
    ),
    (
        "module Top:\n    w: V\n    v: V = w / x ** 2\n",
        "1: F15 NoSuchMember 1:36..37",
    ),
    (
        "module Top:\n    w: V\n    assert w < 5V + x\n",
        "1: F15 NoSuchMember 1:41..42",
    ),
    (
        "module Top:\n    w: V\n    assert x within 1V to 2V\n",
        "1: F15 NoSuchMember 1:32..33",
    ),
    (
        "import Resistor\nmodule Top:\n    r = new Resistor\n    assert r.resistance > r.1\n",
        "1: F18 WrongKind 1:75..76",
    ),
    (
        "module Top:\n    w: V\n    u = w\n    signal u\n",
        "1: F18 WrongKind 1:25..26",
    ),
    (
        "import Resistor\nmodule Top:\n    r = new Resistor\n    r.resistance = 2 * 5kohm\n",
        "1: F18 WrongKind 1:68..69",
    ),
    (
        "import Resistor\nmodule Top:\n    r = new Resistor\n    r.resistance = (5kohm)\n",
        "1: F18 WrongKind 1:68..69",
    ),
    (
        "import Resistor\nmodule Top:\n    r = new Resistor\n    r.resistance = -5kohm + 6kohm\n",
        "1: F18 WrongKind 1:68..69",
    ),
    (
        "import Resistor\nmodule Top:\n    r = new Resistor\n    r.resistance = abs(5kohm)\n",
        "1: F18 WrongKind 1:68..71",
    ),
    (
        "import Resistor\nmodule Top:\n    r = new Resistor\n    r.resistance = max(5kohm, 6kohm) ** 1\n",
        "1: F18 WrongKind 1:68..71",
    ),
    (
        "import Resistor\nmodule Top:\n    r = new Resistor\n    w: ohm\n    r.resistance = w\n",
        "2: F18 WrongKind 1:79..80",
    ),
    (
        "component C:\n    x: V = x + 1V\n    kind = 'c'\nmodule Top: c = new C\n",
        "1: F18 WrongKind 1:24..25 in c",
    ),
    (
        "import Resistor\nmodule Top:\n    r = new Resistor\n    r.resistance = y + 1ohm\n",
        "1: F18 WrongKind 1:68..69",
    ),
    (
        "component C:\n    signal kind\n    x: V\nmodule Top:\n    c = new C\n    c.x = 2 * 3V\n    c.kind = 'r'\n",
        "2: F18 WrongKind 1:87..91",
    ),
    (
        "component C:\n    x: V\nmodule Top:\n    c = new C\n    c.x = 2 * 3V\n    c.y = 1V\n",
        "2: F15 NoSuchMember 1:71..72",
    ),
    (
        "module C:\n    x: V\n    kind = 'c'\nmodule Top:\n    c = new C\n    c.x = 2 * 3V\n    c.y = 1V\n",
        "2: F15 NoSuchMember 1:83..84",
    ),
    (
        "component C:\n    x: V\n    kind = True\nmodule Top:\n    c = new C\n    c.x = 2 * 3V\n    c.y = 1V\n",
        "2: F15 NoSuchMember 1:87..88",
    ),
    (
        "module Top:\n    designator_prefix = 'ABCDEFGHI'\n",
        "0: F18 WrongKind 1:36..47",
    ),
    (
        "module Top:\n    designator_prefix = ''\n",
        "0: F18 WrongKind 1:36..38",
    ),
    (
        "module Top:\n    designator_prefix = 'R1'\n",
        "0: F18 WrongKind 1:36..40",
    ),
    (
        "module Top:\n    designator_prefix = '1'\n",
        "0: F18 WrongKind 1:36..39",
    ),
    (
        "module Top:\n    designator_prefix = 'é'\n",
        "0: F18 WrongKind 1:36..40",
    ),
    (
        "module Top:\n    designator_prefix = 'R '\n",
        "0: F18 WrongKind 1:36..40",
    ),
    (
        "component C:\n    designator_prefix = 'X'\nmodule Top:\n    c = new C\n    c.designator_prefix = '9'\n",
        "1: F18 WrongKind 1:93..96",
    ),
    (
        "component C:\n    designator_prefix = '9'\nmodule Top:\n    c = new C\n",
        "1: F18 WrongKind 1:37..40 in c",
    ),
    (
        "component C:\n    designator_prefix = '9'\nmodule Top:\n    c = new C\n    c.designator_prefix = 'X'\n    u ~ u\n",
        "2: F15 NoSuchMember 1:101..102",
    ),
    (
        "component C:\n    designator_prefix = '9'\n    designator_prefix = 'X'\nmodule Top:\n    c = new C\n    c.y = 1V\n",
        "1: F15 NoSuchMember 1:101..102",
    ),
];

/// Entry files, and the trees of their blocks `Top`. The library's blocks have the numbers 0 to 9.
const TREES: &[(&str, &str)] = &[
    ("module Top: pass\n", "nodes M=10 | 0:10.0.0"),
    (
        "module Top: signal a ~ signal b\n",
        "nodes M=10 0sa 0sb | 0:10.0.0",
    ),
    (
        "component A:\n    pin 1\n    x: V\n    x = 5V\nmodule Top:\n    b = new A\n    a = new A\n    b.x = 6V\n",
        "nodes M=11 0Cb=10 1/1 1vx 0Ca=10 4/1 4vx | 0:11.0.0 0:11.1.0 0:11.2.0>1x 1:10.0.0 1:10.1.0 1:10.2.0 4:10.0.0 4:10.1.0 4:10.2.0>4x",
    ),
    (
        "module A:\n    x: V = 1V\nmodule B from A:\n    x = 2V; x = 3V\nmodule Top:\n    a = new A\n    a -> B\n",
        "nodes M=12 0Ma=11 1vx | 0:12.0.0 0:12.1.0 1:10.0.0 1:11.0.0 1:11.0.1>1x",
    ),
];

#[test]
fn trees_are_made(rt: HostRuntime) -> Result<(), Fail> {
    for (source, line) in TREES {
        assert!(rt; told(rt.alloc(), source)?.as_str() == *line, "{source}");
    }
    Ok(())
}

#[test]
fn faults_of_trees_are_found(rt: HostRuntime) -> Result<(), Fail> {
    for (source, line) in TREE_FAULTS {
        assert!(rt; told(rt.alloc(), source)?.as_str() == *line, "{source}");
    }
    Ok(())
}

#[test]
fn faults_of_paths_are_found(rt: HostRuntime) -> Result<(), Fail> {
    for (source, line) in PATH_FAULTS {
        assert!(rt; told(rt.alloc(), source)?.as_str() == *line, "{source}");
    }
    Ok(())
}
