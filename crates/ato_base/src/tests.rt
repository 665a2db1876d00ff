ghost use Rattle.std.specs.Prelude.{◌≡◌, ◌<◌, length, slice_set};

use crate::{FaultKind, Keyword, List, Mark, Name, NameTable, NoMemory, Refusal, Text, is_name};
use std::test::Fail;

/// Writes through the loan of the items.
fn clear_first(list: &mut List<u8>)
    requires { 0 < length list.old }
    ensures { list.new ≡ slice_set list.old 0 0 }
{
    list.as_mut_slice()[0] = 0;
}

#[test]
fn lists_grow(rt: HostRuntime) -> Result<(), Fail> {
    let mut list = List::from_vec(vec![in rt.alloc(); 7, 8]?);
    list.push(9)?;
    assert!(rt; list.len() == 3 && !list.is_empty());
    clear_first(&mut list);
    assert!(rt; list.as_slice() == [0, 8, 9].as_slice());
    assert!(rt; list.into_vec().as_slice() == [0, 8, 9].as_slice());
    Ok(())
}

#[test]
fn texts_grow(rt: HostRuntime) -> Result<(), Fail> {
    let alloc = rt.alloc();
    let mut text = Text::copy(alloc, "pin ")?;
    text.push_str("1")?;
    let whole = Text::from_string(String::from_str(alloc, "a")?);
    assert!(rt; text.as_str() == "pin 1" && whole.as_str() == "a");
    assert!(rt; Text::new(alloc).as_str() == "");
    Ok(())
}

/// Names in turn, each with its number.
const NAMES: &[(&str, usize)] = &[
    ("vin", 3),
    ("max", 1),
    ("gnd", 4),
    ("vin", 3),
    ("", 5),
    ("abs", 0),
];

/// Whether the next name has this number, is found by it and is its text.
fn is_numbered(names: &mut NameTable, text: &str, number: usize) -> Result<bool, NoMemory> {
    let number = Name(number);
    Ok(
        names.intern(text)? == number
            && names.find(text) == Some(number)
            && names.text(number) == Some(text),
    )
}

#[test]
fn names_keep_their_first_place(rt: HostRuntime) -> Result<(), Fail> {
    let mut names = NameTable::new(rt.alloc())?;
    for (text, number) in NAMES {
        assert!(rt; is_numbered(&mut names, text, *number)?, "{text}");
    }
    assert!(rt; names.find("Vin").is_none() && names.text(Name(6)).is_none());
    Ok(())
}

#[test]
fn names_of_the_language(rt: HostRuntime) {
    for (text, is) in [
        ("a", true),
        ("_1", true),
        ("Größe", true),
        ("電圧", true),
        ("", false),
        ("1a", false),
        ("a-b", false),
        ("pin", false),
        ("Pin", true),
        ("True", false),
        ("\u{301}a", false),
    ]
    .iter()
    {
        assert!(rt; is_name(text) == *is, "{text}");
    }
}

/// Kinds of faults, their numbers and names.
const KINDS: &[(FaultKind, u8, &str)] = &[
    (FaultKind::BadText, 1, "BadText"),
    (FaultKind::Syntax, 6, "Syntax"),
    (FaultKind::NameUnknown, 11, "NameUnknown"),
    (FaultKind::NoHeader, 20, "NoHeader"),
    (FaultKind::ProblemTooLarge, 30, "ProblemTooLarge"),
];

#[test]
fn kinds_and_spellings(rt: HostRuntime) {
    for (kind, number, name) in KINDS {
        assert!(rt; kind.number() == *number && kind.name() == *name, "{name}");
    }
    assert!(rt; Keyword::Within.spelling() == "within" && Mark::PlusMinus.spelling() == "+/-");
    assert!(rt; matches!(Refusal::from(NoMemory), Refusal::NoMemory));
}
