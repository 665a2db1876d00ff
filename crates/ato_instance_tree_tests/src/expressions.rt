//! The paths and the first tokens of expressions.
use crate::projects::program_of;
use ato_ast::{Expr, Stmt, Value};
use ato_base::{List, NoMemory, Span};
use ato_files::{Program, SourceFile};
use ato_instance_tree::{first_token, is_literal, paths, source_text, statements};
use std::alloc::Global;
use std::test::Fail;

fn put_text(
    out: &mut String,
    files: &[SourceFile],
    at: Span,
    before: &str,
) -> Result<(), NoMemory> {
    let text = std::str::from_utf8(source_text(files, at)).unwrap_or("?");
    write!(out, "{before}{text}")?;
    Ok(())
}

/// The first token of an expression, whether it is a literal, and its paths from left to right.
fn put_expr(
    out: &mut String,
    alloc: Global,
    program: &Program,
    expr: &Expr,
) -> Result<(), NoMemory> {
    let files = program.files.as_slice();
    put_text(out, files, first_token(expr), "")?;
    out.push_str(if is_literal(expr) { " literal" } else { "" })?;
    let mut found = List::new(alloc);
    paths(expr, &mut found)?;
    for path in found.as_slice() {
        put_text(out, files, path.at, " ")?;
    }
    Ok(())
}

/// The line of the expression that the first statement of block 10 assigns.
fn told(alloc: Global, source: &str) -> Result<String, NoMemory> {
    let mut out = String::new(alloc);
    let Some(program) = program_of(alloc, source)? else {
        return Ok(out);
    };
    let found = statements(alloc, &program, 10)?;
    if let Some(at) = found.as_slice().first()
        && let Stmt::Assign(_, Value::Expr(expr), _) = at.stmt
    {
        put_expr(&mut out, alloc, &program, expr)?;
    }
    Ok(out)
}

/// An entry file, and the line.
const CASES: &[(&str, &str)] = &[
    ("module A: v = 5V +/- 1%\n", "5 literal"),
    ("module A: v = -5V\n", "- literal"),
    ("module A: v = (5V)\n", "("),
    ("module A: v = a.b + c * d.1 - e\n", "a a.b c d.1 e"),
    ("module A: v = -2 * (a / (b + c))\n", "- a b c"),
    ("module A: v = abs(x) ** 2\n", "abs x"),
    ("module A: v = min(a, max(b, 3), c) / d\n", "min a b c d"),
    ("module A: v = max ( a )\n", "max a"),
    ("module A: v = a\n", "a a"),
];

#[test]
fn expressions_name(rt: HostRuntime) -> Result<(), Fail> {
    for (source, want) in CASES {
        let got = told(rt.alloc(), source)?;
        assert_eq!(rt; got.as_str(), *want, "{source}");
    }
    Ok(())
}
