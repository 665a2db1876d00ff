//! Files that are not there, too long or not to be read, at each place of the order.
use crate::answers::{ENTRY, told_of};
use crate::shelves::{Asked, MOST, put_file};
use ato_base::{List, NoMemory, Text};
use std::alloc::Global;
use std::test::Fail;

/// Four files in load order. The last two mention each other.
const FILES: &[(&str, &str)] = &[
    (
        "main.ato",
        "import B from 'b.ato'; import C from 'c.ato'\nmodule M: pass\n",
    ),
    ("b.ato", "import D from 'd.ato'\nmodule B: pass\n"),
    ("c.ato", "from 'd.ato' import D\nmodule C: pass\n"),
    ("d.ato", "import C from 'c.ato'\nmodule D: pass\n"),
];

/// What is wrong.
#[derive(Clone, Copy, Debug, PartialEq, Eq)]
enum Wrong {
    /// A file is missing.
    Missing(&'static str),
    /// A file has this many bytes, by a comment at its end.
    Sized(&'static str, usize),
    /// A file has a fault behind its text.
    Bad(&'static str),
    /// The call of this number fails.
    Failing(usize),
}

use Wrong::{Bad, Failing, Missing, Sized};

/// What is wrong, and the line.
const CASES: &[(&[Wrong], &str)] = &[
    (
        &[],
        "good main.ato b.ato c.ato d.ato: 1.1(10) 2.1(11) 3.1(12) 4.1(13)",
    ),
    (&[Missing("main.ato")], "F8 FileMissing word 1 of main.ato?"),
    (
        &[Missing("b.ato")],
        "F8 FileMissing 1:14..21 of main.ato b.ato?",
    ),
    (
        &[Missing("c.ato")],
        "F8 FileMissing 1:37..44 of main.ato b.ato c.ato?",
    ),
    (
        &[Missing("d.ato")],
        "F8 FileMissing 2:14..21 of main.ato b.ato c.ato d.ato?",
    ),
    (
        &[Sized("main.ato", MOST + 1)],
        "F9 FileTooLong word 1 of main.ato?",
    ),
    (
        &[Sized("b.ato", MOST + 1)],
        "F9 FileTooLong 1:14..21 of main.ato b.ato?",
    ),
    (
        &[Sized("c.ato", MOST + 1)],
        "F9 FileTooLong 1:37..44 of main.ato b.ato c.ato?",
    ),
    (
        &[Sized("d.ato", MOST + 1)],
        "F9 FileTooLong 2:14..21 of main.ato b.ato c.ato d.ato?",
    ),
    (
        &[
            Sized("main.ato", MOST),
            Sized("b.ato", MOST),
            Sized("c.ato", MOST),
            Sized("d.ato", MOST),
        ],
        "good main.ato b.ato c.ato d.ato: 1.1(10) 2.1(11) 3.1(12) 4.1(13)",
    ),
    (&[Failing(1)], "unread main.ato of main.ato"),
    (&[Failing(2)], "unread b.ato of main.ato b.ato"),
    (&[Failing(3)], "unread c.ato of main.ato b.ato c.ato"),
    (&[Failing(4)], "unread d.ato of main.ato b.ato c.ato d.ato"),
    (
        &[Failing(5)],
        "good main.ato b.ato c.ato d.ato: 1.1(10) 2.1(11) 3.1(12) 4.1(13)",
    ),
    // the first of several, by the order of loading
    (
        &[Missing("b.ato"), Sized("c.ato", MOST + 1)],
        "F8 FileMissing 1:14..21 of main.ato b.ato?",
    ),
    (
        &[Missing("c.ato"), Sized("b.ato", MOST + 1)],
        "F9 FileTooLong 1:14..21 of main.ato b.ato?",
    ),
    (
        &[Missing("c.ato"), Missing("d.ato")],
        "F8 FileMissing 1:37..44 of main.ato b.ato c.ato?",
    ),
    (
        &[Failing(2), Missing("b.ato")],
        "unread b.ato of main.ato b.ato",
    ),
    (
        &[Failing(2), Sized("b.ato", MOST + 1)],
        "unread b.ato of main.ato b.ato",
    ),
    (
        &[Failing(3), Missing("b.ato")],
        "F8 FileMissing 1:14..21 of main.ato b.ato?",
    ),
    (
        &[Failing(2), Missing("c.ato")],
        "unread b.ato of main.ato b.ato",
    ),
    // a file's own faults come before the next file
    (
        &[Failing(2), Bad("main.ato")],
        "F6 Syntax 1:60..61 of main.ato",
    ),
    (
        &[Missing("b.ato"), Bad("main.ato")],
        "F6 Syntax 1:60..61 of main.ato",
    ),
    (
        &[Missing("c.ato"), Bad("b.ato")],
        "F6 Syntax 2:37..38 of main.ato b.ato",
    ),
    (
        &[Failing(3), Bad("b.ato")],
        "F6 Syntax 2:37..38 of main.ato b.ato",
    ),
    (
        &[Failing(3), Bad("c.ato")],
        "unread c.ato of main.ato b.ato c.ato",
    ),
    (
        &[Missing("d.ato"), Bad("c.ato")],
        "F6 Syntax 3:37..38 of main.ato b.ato c.ato",
    ),
    (
        &[Missing("c.ato"), Bad("d.ato")],
        "F8 FileMissing 1:37..44 of main.ato b.ato c.ato?",
    ),
    (
        &[Sized("b.ato", MOST + 1), Bad("b.ato")],
        "F9 FileTooLong 1:14..21 of main.ato b.ato?",
    ),
];

/// What stands in a file in which these things are wrong; nothing where it is missing.
fn text_of(
    alloc: Global,
    name: &str,
    text: &str,
    wrongs: &[Wrong],
) -> Result<Option<Vec<u8>>, NoMemory> {
    let mut bytes = Vec::new(alloc);
    bytes.extend_from_slice(text.as_bytes())?;
    for wrong in wrongs {
        match *wrong {
            Missing(other) if other == name => return Ok(None),
            Bad(other) if other == name => bytes.push(b')')?,
            Sized(other, size) if other == name => {
                bytes.push(b'#')?;
                for _ in bytes.len()..size {
                    bytes.push(b'x')?;
                }
            }
            _ => {}
        }
    }
    Ok(Some(bytes))
}

/// The line of the files in which these things are wrong.
fn told_with(alloc: Global, wrongs: &[Wrong]) -> Result<String, NoMemory> {
    let mut files: List<(Text, List<u8>)> = List::new(alloc);
    for (name, text) in FILES {
        if let Some(bytes) = text_of(alloc, name, text, wrongs)? {
            put_file(&mut files, alloc, name, &bytes)?;
        }
    }
    let mut fails = 0;
    for wrong in wrongs {
        if let Failing(call) = *wrong {
            fails = call;
        }
    }
    let mut shelf = Asked::new(alloc, files).failing(fails);
    told_of(alloc, &mut shelf, ENTRY)
}

#[test]
fn the_first_file_that_is_not_there_is_told(rt: HostRuntime) -> Result<(), Fail> {
    for (wrongs, want) in CASES {
        let got = told_with(rt.alloc(), wrongs)?;
        assert_eq!(rt; got.as_str(), *want, "{wrongs:?}");
    }
    Ok(())
}
