use ato_base::{List, NoMemory, Text};
use ato_build::run;
use ato_outside::{MemSink, Shelf, Sink, SureShelf, SureTray, Tray};
use std::alloc::Global;

/// Words that blanks divide.
fn words(alloc: Global, line: &str) -> Result<Vec<String>, NoMemory> {
    let mut words = Vec::new(alloc);
    for word in line.split(' ') {
        words.push(String::from_str(alloc, word)?)?;
    }
    Ok(words)
}

/// A catalogue without rows.
pub(crate) const NO_ROWS: &[u8] = b"part,kind\n";

/// A file of this name with these bytes.
fn file(alloc: Global, name: &str, text: &[u8]) -> Result<(Text, List<u8>), NoMemory> {
    let mut bytes = Vec::new(alloc);
    bytes.extend_from_slice(text)?;
    Ok((Text::copy(alloc, name)?, List::from_vec(bytes)))
}

/// The file `main.ato` with these bytes, and `cat.csv` with others.
pub(crate) fn files(
    alloc: Global,
    source: &[u8],
    catalogue: &[u8],
) -> Result<List<(Text, List<u8>)>, NoMemory> {
    let mut files = List::new(alloc);
    files.push(file(alloc, "main.ato", source)?)?;
    files.push(file(alloc, "cat.csv", catalogue)?)?;
    Ok(files)
}

/// The status code of a run. It has no clause, so that what `run` promises is read here once and not in each test.
pub(crate) fn code_of<S: Shelf, T: Tray, O: Sink>(
    alloc: Global,
    line: &str,
    shelf: &mut S,
    tray: &mut T,
    out: &mut O,
) -> Result<u8, NoMemory> {
    let words = words(alloc, line)?;
    Ok(run(alloc, &words, shelf, tray, out).code())
}

/// A sink with room for what any run prints, which never fails.
pub(crate) fn wide_sink(alloc: Global) -> Result<MemSink, NoMemory> {
    MemSink::new(alloc, 200, List::new(alloc))
}

/// What a run over files in memory gives: its status code, what is put and what is printed.
pub(crate) fn run_over(
    alloc: Global,
    source: &[u8],
    catalogue: &[u8],
    line: &str,
) -> Result<(u8, SureTray, MemSink), NoMemory> {
    let mut shelf = SureShelf::new(files(alloc, source, catalogue)?);
    let mut tray = SureTray::new(alloc);
    let mut sink = wide_sink(alloc)?;
    let code = code_of(alloc, line, &mut shelf, &mut tray, &mut sink)?;
    Ok((code, tray, sink))
}

/// The same with a catalogue that has no rows.
pub(crate) fn built(
    alloc: Global,
    source: &[u8],
    line: &str,
) -> Result<(u8, SureTray, MemSink), NoMemory> {
    run_over(alloc, source, NO_ROWS, line)
}
