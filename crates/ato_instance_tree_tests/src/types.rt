//! The kinds, members and statements of types, and what their names mean.
use crate::projects::program_of;
use ato_base::{FileId, Name, NoMemory};
use ato_files::Program;
use ato_instance_tree::{Kind, Member, NodeKind, StmtAt, kind, members, statements};
use std::alloc::Global;
use std::test::Fail;

fn letter(kind: NodeKind) -> &'static str {
    match kind {
        NodeKind::Module => "M",
        NodeKind::Component => "C",
        NodeKind::Interface => "I",
        NodeKind::Signal | NodeKind::Pin | NodeKind::Param => "?",
    }
}

fn text(program: &Program, name: Name) -> &str {
    program.names.text(name).unwrap_or("?")
}

fn put_member(out: &mut String, program: &Program, member: &Member<'_>) -> Result<(), NoMemory> {
    match member {
        Member::Pin(label) => write!(out, " /{}", std::str::from_utf8(label).unwrap_or("?"))?,
        Member::Named(name, Kind::Signal) => write!(out, " {}:s", text(program, name.name))?,
        Member::Named(name, Kind::Param) => write!(out, " {}:v", text(program, name.name))?,
        Member::Named(name, Kind::Instance(of)) => {
            let (name, of) = (text(program, name.name), text(program, of.name));
            write!(out, " {name}:i{of}")?;
        }
    }
    Ok(())
}

fn put_statements(out: &mut String, found: &[StmtAt<'_>]) -> Result<(), NoMemory> {
    out.push_str(" |")?;
    for at in found {
        write!(out, " {}.{}.{}", at.block, at.line, at.part)?;
    }
    Ok(())
}

/// What the type of a number has, in one line.
fn told(alloc: Global, source: &str, block: u32) -> Result<String, NoMemory> {
    let mut out = String::new(alloc);
    let Some(program) = program_of(alloc, source)? else {
        out.push_str("no program")?;
        return Ok(out);
    };
    out.push_str(letter(kind(&program, block)))?;
    let found = statements(alloc, &program, block)?;
    let declared = members(alloc, program.files.as_slice(), found.as_slice())?;
    for member in declared.as_slice() {
        put_member(&mut out, &program, member)?;
    }
    put_statements(&mut out, found.as_slice())?;
    Ok(out)
}

/// An entry file, the number of a block, and the line.
const TYPES: &[(&str, u32, &str)] = &[
    ("module A: pass\n", 10, "M | 10.0.0"),
    (
        "interface A:\n    signal a; signal b\n",
        10,
        "I a:s b:s | 10.0.0 10.0.1",
    ),
    (
        "component A:\n    signal z\n    pin 2\ncomponent B from A:\n    v = 5V\n    signal z ~ pin x\n    pin '2'; pin 1\n    w: V\n",
        11,
        "C z:s /2 v:v /x /1 w:v | 10.0.0 10.1.0 11.0.0 11.1.0 11.2.0 11.2.1 11.3.0",
    ),
    (
        "module A:\n    p = 1V\n    signal s\n    p: V\n    a = new B\nmodule B: pass\n",
        10,
        "M s:s p:v a:iB | 10.0.0 10.1.0 10.2.0 10.3.0",
    ),
    (
        "module A: pass\ncomponent B from A: pass\nmodule C from B: pass\n",
        12,
        "C | 10.0.0 11.0.0 12.0.0",
    ),
    (
        "module A:\n    'about'\n    note = 'x'\n    u = 1\n    u = 2\n",
        10,
        "M u:v | 10.0.0 10.1.0 10.2.0 10.3.0",
    ),
    (
        "component A:\n    signal a ~ pin a\n    a ~ signal b\n",
        10,
        "C a:s /a b:s | 10.0.0 10.1.0",
    ),
    // the library's resistor
    (
        "module A: pass\n",
        5,
        "C p1:s /1 p2:s /2 resistance:v max_power:v max_voltage:v | 5.0.0 5.1.0 5.2.0 5.3.0 5.4.0 5.5.0 5.6.0",
    ),
    // no block has this number
    ("module A: pass\n", 11, "I |"),
];

#[test]
fn types_have(rt: HostRuntime) -> Result<(), Fail> {
    for (source, block, want) in TYPES {
        let got = told(rt.alloc(), source, *block)?;
        assert_eq!(rt; got.as_str(), *want, "{source}");
    }
    Ok(())
}

/// The number of the block that a name means in a file, by what is kept of meanings.
fn meant(alloc: Global, source: &str, file: u32, name: &str) -> Result<Option<u32>, NoMemory> {
    let Some(program) = program_of(alloc, source)? else {
        return Ok(None);
    };
    let meanings = program.meanings(alloc)?;
    Ok(match program.names.find(name) {
        Some(name) => meanings.meaning_in(FileId(file), name),
        None => None,
    })
}

/// An entry file, a file's number, a name, and the number of the block that it means.
const MEANINGS: &[(&str, u32, &str, Option<u32>)] = &[
    (
        "import LED\nmodule A: pass\nmodule B: pass\n",
        1,
        "B",
        Some(11),
    ),
    ("import LED\nmodule A: pass\n", 1, "LED", Some(9)),
    ("import LED\nmodule A: pass\n", 1, "Diode", None),
    ("import LED\nmodule A: pass\n", 0, "Diode", Some(8)),
    ("import LED\nmodule A: pass\n", 0, "A", None),
    ("module A: pass\n", 2, "A", None),
];

#[test]
fn names_mean(rt: HostRuntime) -> Result<(), Fail> {
    for (source, file, name, want) in MEANINGS {
        let got = meant(rt.alloc(), source, *file, name)?;
        assert_eq!(rt; got, *want, "{name} in {source}");
    }
    Ok(())
}
