//! Which declarations of a name go together in a block.
use crate::answers::told_one;
use std::test::Fail;

/// Entries of one component whose declarations go together, and the item of the component.
const TOGETHER: &[(&str, &str)] = &[
    (
        "component C:\n    signal a\n    signal a\n",
        "good main.ato: 1.0(10)",
    ),
    (
        "component C: signal a ~ signal a; signal a\n",
        "good main.ato: 1.0(10)",
    ),
    (
        "component C:\n    signal a\n    b ~ signal a\n    pin 1 ~ signal a\n",
        "good main.ato: 1.0(10)",
    ),
    (
        "component C:\n    pin 1\n    pin 1; pin 01\n    pin a ~ pin a\n    pin 'a' ~ pin a\n",
        "good main.ato: 1.0(10)",
    ),
    (
        "component C:\n    v: V\n    v: V\n    v: A = 5\n",
        "good main.ato: 1.0(10)",
    ),
    (
        "component C: v: V = 5; v: V = 6\n",
        "good main.ato: 1.0(10)",
    ),
    // labels of pins are names of their own
    (
        "component C:\n    pin a\n    signal a\n",
        "good main.ato: 1.0(10)",
    ),
    (
        "component C:\n    signal a ~ pin a\n    a ~ pin 'a'\n",
        "good main.ato: 1.0(10)",
    ),
    (
        "component C:\n    pin a\n    a: V\n",
        "good main.ato: 1.0(10)",
    ),
    (
        "component C:\n    a = new C\n    pin a\n    pin 'a'\n",
        "good main.ato: 1.0(10)",
    ),
    // an assignment, a replacement and a use declare nothing here
    (
        "component C:\n    a = 5\n    a = 6V\n",
        "good main.ato: 1.0(10)",
    ),
    (
        "component C:\n    a = 5\n    signal a\n",
        "good main.ato: 1.0(10)",
    ),
    (
        "component C:\n    signal a\n    a = 5\n",
        "good main.ato: 1.0(10)",
    ),
    (
        "component C:\n    a = 5\n    a = new C\n",
        "good main.ato: 1.0(10)",
    ),
    (
        "component C:\n    a = new C\n    a = b + 5\n    a = 'text'\n    a = True\n",
        "good main.ato: 1.0(10)",
    ),
    (
        "component C:\n    a = 5\n    a: V\n    a = 6\n",
        "good main.ato: 1.0(10)",
    ),
    (
        "component C:\n    a = new C\n    a -> C\n    a -> C\n",
        "good main.ato: 1.0(10)",
    ),
    (
        "component C:\n    a.b = 5\n    a: V\n    a ~ b\n    a.c ~ a.d\n    assert a > 5\n",
        "good main.ato: 1.0(10)",
    ),
    (
        "component C:\n    'a'\n    'a'\n    pass; pass\n    signal a\n",
        "good main.ato: 1.0(10)",
    ),
    // a unit is no member, nor is a type
    (
        "component C:\n    a: a\n    b: a\n    signal V\n    c: V\n",
        "good main.ato: 1.0(10)",
    ),
    (
        "component C:\n    signal C\n    a = new C\n    b = new C\n",
        "good main.ato: 1.0(10)",
    ),
];

/// Entries of one component in which two declarations do not go together. The later one has the fault.
const APART: &[(&str, &str)] = &[
    (
        "component C:\n    signal a\n    a = new C\n",
        "F12 NameTwice 1:30..31 of main.ato",
    ),
    (
        "component C:\n    a = new C\n    signal a\n",
        "F12 NameTwice 1:38..39 of main.ato",
    ),
    (
        "component C:\n    signal a\n    a: V\n",
        "F12 NameTwice 1:30..31 of main.ato",
    ),
    (
        "component C:\n    a: V\n    signal a\n",
        "F12 NameTwice 1:33..34 of main.ato",
    ),
    (
        "component C:\n    a: V = 5V\n    a = new C\n",
        "F12 NameTwice 1:31..32 of main.ato",
    ),
    (
        "component C:\n    a = new C\n    a: V\n",
        "F12 NameTwice 1:31..32 of main.ato",
    ),
    (
        "component C:\n    a = new C\n    a = new C\n",
        "F12 NameTwice 1:31..32 of main.ato",
    ),
    (
        "component C: a = new C; a = new C; a = new C\n",
        "F12 NameTwice 1:24..25 of main.ato",
    ),
    (
        "component C:\n    signal a\n    a: V = 5\n",
        "F12 NameTwice 1:30..31 of main.ato",
    ),
    // declared as an end of a connection
    (
        "component C:\n    a: V\n    b ~ signal a\n",
        "F12 NameTwice 1:37..38 of main.ato",
    ),
    (
        "component C:\n    a: V\n    pin 1 ~ signal a\n",
        "F12 NameTwice 1:41..42 of main.ato",
    ),
    (
        "component C:\n    a = new C\n    signal b ~ signal a\n",
        "F12 NameTwice 1:49..50 of main.ato",
    ),
    (
        "component C:\n    a = new C\n    signal a ~ signal b\n",
        "F12 NameTwice 1:38..39 of main.ato",
    ),
    (
        "component C:\n    b ~ signal a\n    a = new C\n",
        "F12 NameTwice 1:34..35 of main.ato",
    ),
    (
        "component C:\n    pin 1 ~ signal a\n    a: V\n",
        "F12 NameTwice 1:38..39 of main.ato",
    ),
    (
        "component C:\n    signal b ~ signal a\n    b: V\n",
        "F12 NameTwice 1:41..42 of main.ato",
    ),
    (
        "component C:\n    pin a ~ signal a\n    a: V\n",
        "F12 NameTwice 1:38..39 of main.ato",
    ),
    // the first that does not go with one before it
    (
        "component C:\n    signal a\n    signal a\n    a: V\n    a = new C\n",
        "F12 NameTwice 1:43..44 of main.ato",
    ),
    (
        "component C:\n    a: V\n    signal b\n    signal a\n    b: V\n    a: V\n",
        "F12 NameTwice 1:46..47 of main.ato",
    ),
    (
        "component C:\n    a: V\n    signal b\n    b: V\n    signal a\n",
        "F12 NameTwice 1:39..40 of main.ato",
    ),
    (
        "component C:\n    a = 5\n    a: V\n    a = 6\n    signal a\n",
        "F12 NameTwice 1:53..54 of main.ato",
    ),
    (
        "component C: signal a; signal b; signal c; b: V\n",
        "F12 NameTwice 1:43..44 of main.ato",
    ),
    (
        "component C:\n    abs: V\n    signal abs\n",
        "F12 NameTwice 1:35..38 of main.ato",
    ),
];

#[test]
fn declarations_of_a_name(rt: HostRuntime) -> Result<(), Fail> {
    for rows in [TOGETHER, APART].iter() {
        for (text, want) in *rows {
            let got = told_one(rt.alloc(), text)?;
            assert_eq!(rt; got.as_str(), *want, "{text}");
        }
    }
    Ok(())
}
