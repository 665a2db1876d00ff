use super::printed;
use ato_base::{Name, NameTable, NoMemory};
use std::alloc::Global;
use std::test::Fail;

/// A text over a table that has two names, its tokens, and the names that it adds.
type Row = (&'static str, &'static str, &'static [&'static str]);

const ROWS: &[Row] = &[
    (
        "b a b pin a c",
        "name5@0..1 name6@2..3 name5@4..5 pin@6..9 name6@10..11 name7@12..13 newline@13..13 end@13..13",
        &["b", "a", "c"],
    ),
    (
        "max(out, in_, abs)",
        "name1@0..3 (@3..4 name3@4..7 ,@7..8 name4@9..12 ,@12..13 name0@14..17 )@17..18 newline@18..18 end@18..18",
        &[],
    ),
    (
        "pin 'a' # b\nx",
        "pin@0..3 str(5..6)@4..7 newline@7..7 name5@12..13 newline@13..13 end@13..13",
        &["x"],
    ),
    (
        "5kohm/2kohm",
        "5@0..1 name5@1..5 /@5..6 2@6..7 name5@7..11 newline@11..11 end@11..11",
        &["kohm"],
    ),
    (
        "e\u{301} \u{e9}",
        "name5@0..3 name6@4..6 newline@6..6 end@6..6",
        &["e\u{301}", "\u{e9}"],
    ),
    ("1e40 a", "WideNumber@0..4", &[]),
];

/// Whether the names from number 5 on are these.
fn has_names(names: &NameTable, want: &[&str]) -> bool {
    for (number, text) in want.iter().enumerate() {
        if number > 100 || names.text(Name(5 + number)) != Some(*text) {
            return false;
        }
    }
    want.len() < 100 && names.text(Name(5 + want.len())).is_none()
}

/// Whether a text is printed so, over a table that has two names, and adds these.
fn names_case(alloc: Global, row: &Row) -> Result<bool, NoMemory> {
    let mut names = NameTable::new(alloc)?;
    names.intern("out")?;
    names.intern("in_")?;
    let text = printed(alloc, row.0.as_bytes(), &mut names)?;
    Ok(text.as_str() == row.1 && has_names(&names, row.2))
}

#[test]
fn names_in_the_order_of_mention(rt: HostRuntime) -> Result<(), Fail> {
    for row in ROWS {
        assert!(rt; names_case(rt.alloc(), row)?, "{}", row.0);
    }
    Ok(())
}
