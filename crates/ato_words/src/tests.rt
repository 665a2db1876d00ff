use crate::{Build, Check, Task, job};
use ato_base::NoMemory;
use std::alloc::Global;
use std::test::Fail;

/// Words that blanks divide.
fn words(alloc: Global, line: &str) -> Result<Vec<String>, NoMemory> {
    let mut words = Vec::new(alloc);
    for word in line.split(' ') {
        words.push(String::from_str(alloc, word)?)?;
    }
    Ok(words)
}

fn told_build(alloc: Global, build: &Build) -> Result<String, NoMemory> {
    let file = build.file.as_str();
    let block = build.block.as_str();
    let catalogue = build.catalogue.as_str();
    let out = build.out.as_str();
    let steps = build.steps;
    Ok(format!(in alloc; "build {file} {block} {catalogue} {out} {steps}")?)
}

fn told_check(alloc: Global, check: &Check) -> Result<String, NoMemory> {
    let file = check.file.as_str();
    let block = check.block.as_str();
    let catalogue = check.catalogue.as_str();
    let cert = check.cert.as_str();
    Ok(format!(in alloc; "check {file} {block} {catalogue} {cert}")?)
}

/// The task that words are with its fields, or `none`.
fn told(alloc: Global, words: &Vec<String>) -> Result<String, NoMemory> {
    match job(alloc, words)? {
        None => Ok(String::from_str(alloc, "none")?),
        Some(Task::Build(build)) => told_build(alloc, &build),
        Some(Task::Check(check)) => told_check(alloc, &check),
    }
}

/// Command lines with the tasks that they are.
const TASKS: &[(&str, &str)] = &[
    (
        "build main.ato:T cat.csv",
        "build main.ato T cat.csv out 20000",
    ),
    (
        "--out x build main.ato:T cat.csv",
        "build main.ato T cat.csv x 20000",
    ),
    (
        "build main.ato:T cat.csv --out=x",
        "build main.ato T cat.csv x 20000",
    ),
    (
        "build a/b.ato:T c/d.csv --out o/x",
        "build a/b.ato T c/d.csv o/x 20000",
    ),
    (
        "build main.ato:T out.csv --out x",
        "build main.ato T out.csv x 20000",
    ),
    (
        "check main.ato:T cat.csv out.cert",
        "check main.ato T cat.csv out.cert",
    ),
    (
        "check main.ato:T out.csv c.cert",
        "check main.ato T out.csv c.cert",
    ),
    (
        "check out.net:T cat.csv cat.csv",
        "check out.net T cat.csv cat.csv",
    ),
    (
        "check -- main.ato:T cat.csv c.cert",
        "check main.ato T cat.csv c.cert",
    ),
    (
        "-- check main.ato:T cat.csv c.cert",
        "check main.ato T cat.csv c.cert",
    ),
    (
        "check main.ato:T cat.csv -- c.cert",
        "check main.ato T cat.csv c.cert",
    ),
    (
        "check a:b.ato:T cat.csv c:d.cert",
        "check a:b.ato T cat.csv c:d.cert",
    ),
];

/// Command lines that are no task.
const NO_TASKS: &[&str] = &[
    "",
    "build",
    "check",
    "Check main.ato:T cat.csv c.cert",
    "verify main.ato:T cat.csv c.cert",
    "build main.ato:T cat.csv c.cert",
    "build main.ato:T out.csv",
    "build main.ato:T x.csv --out x",
    "build main.ato:T cat.csv --out x --out x",
    "build main.ato:T cat.csv --out",
    "check main.ato:T cat.csv",
    "check main.ato:T cat.csv c.cert d",
    "check main.ato:T cat.csv c.cert --out x",
    "check main.ato:T cat.csv c.cert --out=x",
    "check main.ato:T cat.csv c.cert --out out",
    "check main.ato:T cat.csv c.cert --out",
    "check main.ato:T cat.csv c.cert --steps 7",
    "check main.ato:T cat.csv -c",
    "check -- main.ato:T cat.csv -c",
    "check main.ato:T ../cat.csv c.cert",
    "check main.ato:T cat.csv ./c.cert",
    "check main.ato:T cat.csv ",
    "check /main.ato:T cat.csv c.cert",
    "check main.ato:module cat.csv c.cert",
    "check main.ato: cat.csv c.cert",
    "check main.ato cat.csv c.cert",
    "check :T cat.csv c.cert",
];

/// Whether a command line is this task, with its fields, or `none`.
fn is_told(alloc: Global, line: &str, task: &str) -> Result<bool, NoMemory> {
    let told = told(alloc, &words(alloc, line)?)?;
    Ok(told.as_str() == task)
}

#[test]
fn command_lines_and_their_tasks(rt: HostRuntime) -> Result<(), Fail> {
    for (line, task) in TASKS {
        assert!(rt; is_told(rt.alloc(), line, task)?, "at {line}");
    }
    Ok(())
}

#[test]
fn command_lines_that_are_no_task(rt: HostRuntime) -> Result<(), Fail> {
    assert!(rt; job(rt.alloc(), &Vec::new(rt.alloc()))?.is_none());
    for line in NO_TASKS {
        assert!(rt; is_told(rt.alloc(), line, "none")?, "at {line}");
    }
    Ok(())
}
