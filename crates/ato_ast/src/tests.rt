//! A file of every form, made by hand, and its kinds in short.
//!
//! A name is `name` with its number, a number its value or `decimal` and where it starts, a string `str`
//! and where what stands between its quotes starts, and a keyword or a mark its spelling.
mod exprs;
mod files;
mod stmts;

use crate::{File, Label, Named, Number, Point, Quoted, Stmt, flat};
use ato_base::{FileId, List, Name, NoMemory, Span, TokenKind};
use std::alloc::Global;
use std::test::Fail;

/// Where each part of a tree stands, besides names, numbers and what stands in strings.
const AT: Span = Span {
    file: FileId(1),
    start: 7,
    end: 9,
};

/// The span of no byte here.
fn spot(start: u32) -> Span {
    Span {
        file: FileId(1),
        start,
        end: start,
    }
}

fn named(number: usize) -> Named {
    Named {
        name: Name(number),
        at: spot(0),
    }
}

fn number(small: u16, start: u32) -> Number {
    Number {
        whole: true,
        small: Some(small),
        at: spot(start),
    }
}

/// `str@8`
fn quoted() -> Quoted {
    Quoted {
        contents: spot(8),
        at: AT,
    }
}

/// A list of one item.
fn one<T: Drop>(alloc: Global, item: T) -> Result<List<T>, NoMemory> {
    let mut list = List::new(alloc);
    list.push(item)?;
    Ok(list)
}

/// Puts what a token is.
fn put_kind(out: &mut String, kind: TokenKind) -> Result<(), NoMemory> {
    match kind {
        TokenKind::Name(name) => write!(out, "name{}", name.0)?,
        TokenKind::Number {
            whole: true,
            small: Some(value),
            at,
        } => write!(out, "{value}@{}", at.start)?,
        TokenKind::Number { at, .. } => write!(out, "decimal@{}", at.start)?,
        TokenKind::Str(inside) => write!(out, "str@{}", inside.start)?,
        TokenKind::Keyword(keyword) => out.push_str(keyword.spelling())?,
        TokenKind::Mark(mark) => out.push_str(mark.spelling())?,
        TokenKind::Newline => out.push_str("newline")?,
        TokenKind::Indent => out.push_str("indent")?,
        TokenKind::Dedent => out.push_str("dedent")?,
        TokenKind::End => out.push_str("end")?,
    }
    Ok(())
}

/// The kinds of a file, each with a space before it.
fn printed(alloc: Global, file: &File) -> Result<String, NoMemory> {
    let kinds = flat(alloc, file)?;
    let mut out = String::new(alloc);
    for kind in kinds.as_slice() {
        out.push_str(" ")?;
        put_kind(&mut out, *kind)?;
    }
    Ok(out)
}

/// The pieces, each with a space before it.
fn spaced(alloc: Global, pieces: &[&str]) -> Result<String, NoMemory> {
    let mut out = String::new(alloc);
    for piece in pieces {
        out.push_str(" ")?;
        out.push_str(piece)?;
    }
    Ok(out)
}

/// The kinds of the file, a piece for each head, statement and line.
const KINDS: &[&str] = &[
    "import name3 from str@8 ;",
    "import name3 , name4 ;",
    "from str@8 import name5 ;",
    "str@8 ;",
    "pass ; newline",
    "pass newline",
    "module name3 : pass newline",
    "component name4 from name3 : newline indent",
    "signal name4 ;",
    "pin 1@5 ~ name3 . name4 . 7@7 ;",
    "pin str@8 ~ signal name4 ;",
    "name3 ~ pin name5 ;",
    "name3 . name4 . name5 -> name6 ;",
    "name3 = str@8 ;",
    "name3 . name4 = True ;",
    "name3 = False ;",
    "name3 = new name4 ;",
    "name3 : name4 ;",
    "name3 : name4 = 10@1 name9 ;",
    "assert name3 + name4 - name5 < name6 ;",
    "assert name3 ** 2@4 * name4 / name5 <= name6 ;",
    "assert name0 ( ( name3 + name4 - name5 ) ) > name6 ;",
    "assert name2 ( name3 , name4 , name5 ) >= name6 ;",
    "assert name1 ( name3 ) is name6 ;",
    "assert name3 within 10@1 name9 | - decimal@2 to 10@1 name9 | 10@1 name9 +/- 5@3 % ;",
    "assert name3 within 10@1 name9 ;",
    "pass ;",
    "str@8 ; newline",
    "pass newline dedent",
    "interface name3 : pass newline",
    "end",
];

#[test]
fn every_form_is_written_out(rt: HostRuntime) -> Result<(), Fail> {
    let alloc = rt.alloc();
    let got = printed(alloc, &files::file(alloc)?)?;
    assert_eq!(rt; got.as_str(), spaced(alloc, KINDS)?.as_str());
    Ok(())
}

/// A label of each form.
const LABELS: &[Label] = &[
    Label::Name(Named {
        name: Name(3),
        at: AT,
    }),
    Label::Number(
        Number {
            whole: true,
            small: None,
            at: AT,
        },
        AT,
    ),
    Label::Text(Quoted {
        contents: AT,
        at: AT,
    }),
];

/// Whether a statement and its parts stand where they are to.
fn is_placed(stmt: &Stmt) -> bool {
    let inside = match stmt {
        Stmt::Connect(_, end, _) => end.at(),
        Stmt::Assign(_, value, _) => value.at(),
        Stmt::Assert(expr, _, _) => expr.at(),
        _ => AT,
    };
    inside == AT && stmt.at() == AT
}

#[test]
fn parts_tell_where_they_stand(rt: HostRuntime) -> Result<(), Fail> {
    let alloc = rt.alloc();
    for label in LABELS {
        let point = Point::Pin(*label, AT);
        assert!(rt; label.at() == AT && point.at() == AT);
    }
    for head in files::heads(alloc)?.as_slice() {
        assert!(rt; head.at() == AT, "{head:?}");
    }
    for stmt in files::stmts(alloc)?.as_slice() {
        assert!(rt; is_placed(stmt));
    }
    Ok(())
}
