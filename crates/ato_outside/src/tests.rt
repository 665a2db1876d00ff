use crate::dir_shelf::read_all;
use crate::dir_tray::write_all;
use crate::{
    DirShelf, DirTray, Got, MemShelf, MemSink, MemTray, OutSink, Shelf, ShelfError, Sink,
    SinkFailed, SureShelf, SureTray, Tray, TrayError,
};
use ato_base::{List, NoMemory, Text};
use std::alloc::Global;
use std::io::{Error, ErrorKind, Read, Write};
use std::test::Fail;
use std::{env, fs, io};

/// Files of these names and texts.
fn files(alloc: Global, entries: &[(&str, &str)]) -> Result<List<(Text, List<u8>)>, NoMemory> {
    let mut files = List::new(alloc);
    for (name, text) in entries {
        let mut bytes = Vec::new(alloc);
        bytes.extend_from_slice(text.as_bytes())?;
        files.push((Text::copy(alloc, name)?, List::from_vec(bytes)))?;
    }
    Ok(files)
}

/// Whether a get of a name with a limit gives this.
fn gets<S: Shelf>(
    shelf: &mut S,
    asked: (&str, usize),
    into: &mut Vec<u8>,
    want: Result<Got, ShelfError>,
) -> bool {
    shelf.get(asked.0, asked.1, into) == want
}

/// Whether a put gives this.
fn puts<T: Tray>(tray: &mut T, name: &str, bytes: &[u8], want: Result<(), TrayError>) -> bool {
    tray.put(name, bytes) == want
}

/// Whether a write gives this.
fn writes<O: Sink>(sink: &mut O, piece: &[u8], want: Result<usize, SinkFailed>) -> bool {
    sink.write(piece) == want
}

#[test]
fn a_shelf_fails_between_two_good_reads(rt: HostRuntime) -> Result<(), Fail> {
    let alloc = rt.alloc();
    let held = files(alloc, &[("a", "one"), ("b", ""), ("a", "other")])?;
    let mut shelf = MemShelf::new(held, List::from_vec(vec![in alloc; 2]?));
    let mut into = Vec::new(alloc);
    assert!(rt; gets(&mut shelf, ("a", 3), &mut into, Ok(Got::Whole)));
    assert!(rt; into.as_slice() == b"one".as_slice());
    assert!(rt; gets(&mut shelf, ("a", 3), &mut into, Err(ShelfError::Failed)));
    assert!(rt; into.len() == 0);
    assert!(rt; gets(&mut shelf, ("b", 0), &mut into, Ok(Got::Whole)));
    assert!(rt; gets(&mut shelf, ("a", 2), &mut into, Ok(Got::TooLong)));
    assert!(rt; gets(&mut shelf, ("c", 9), &mut into, Ok(Got::Missing)));
    assert!(rt; shelf.faults() == 1 && shelf.misses() == 1);
    Ok(())
}

#[test]
fn a_sure_shelf_reads(rt: HostRuntime) -> Result<(), Fail> {
    let alloc = rt.alloc();
    let mut shelf = SureShelf::new(files(alloc, &[("a", "one"), ("a", "other")])?);
    let mut into = Vec::new(alloc);
    assert!(rt; gets(&mut shelf, ("b", 9), &mut into, Ok(Got::Missing)));
    assert!(rt; gets(&mut shelf, ("a", 3), &mut into, Ok(Got::Whole)));
    assert!(rt; into.as_slice() == b"one".as_slice());
    assert!(rt; shelf.misses() == 1);
    Ok(())
}

/// Whether a tray holds this under a name.
fn holds(tray: &MemTray, name: &str, want: Option<&[u8]>) -> bool {
    tray.get(name) == want
}

#[test]
fn a_tray_fails_after_some_bytes(rt: HostRuntime) -> Result<(), Fail> {
    let alloc = rt.alloc();
    let fail = List::from_vec(vec![in alloc; (2, 3), (3, 99), (2, 0)]?);
    let mut tray = MemTray::new(alloc, fail);
    assert!(rt; puts(&mut tray, "a", b"first", Ok(())));
    assert!(rt; puts(&mut tray, "b", b"second", Err(TrayError::Failed)));
    assert!(rt; puts(&mut tray, "c", b"third", Err(TrayError::Failed)));
    assert!(rt; puts(&mut tray, "a", b"again", Ok(())));
    assert!(rt; holds(&tray, "a", Some(b"again".as_slice())));
    assert!(rt; holds(&tray, "b", Some(b"sec".as_slice())));
    assert!(rt; holds(&tray, "c", Some(b"third".as_slice())));
    assert!(rt; holds(&tray, "d", None));
    assert!(rt; tray.faults() == 2);
    Ok(())
}

#[test]
fn a_sure_tray_holds_what_was_put_last(rt: HostRuntime) {
    let mut tray = SureTray::new(rt.alloc());
    assert!(rt; puts(&mut tray, "a", b"first", Ok(())));
    assert!(rt; puts(&mut tray, "a", b"last", Ok(())));
    assert!(rt; tray.get("a") == Some(b"last".as_slice()));
}

#[test]
fn a_sink_fails_by_number_and_by_room(rt: HostRuntime) -> Result<(), Fail> {
    let alloc = rt.alloc();
    let mut sink = MemSink::new(alloc, 6, List::from_vec(vec![in alloc; 2]?))?;
    assert!(rt; writes(&mut sink, b"one", Ok(3)));
    assert!(rt; writes(&mut sink, b"two", Err(SinkFailed)));
    assert!(rt; writes(&mut sink, b"four", Err(SinkFailed)));
    assert!(rt; writes(&mut sink, b"six", Ok(3)));
    assert!(rt; writes(&mut sink, b"", Ok(0)));
    assert!(rt; sink.written() == b"onesix".as_slice());
    assert!(rt; sink.faults() == 2);
    Ok(())
}

#[test]
fn a_real_folder_gives_back_what_was_put(rt: HostRuntime) -> Result<(), Fail> {
    let alloc = rt.alloc();
    let folder = env::temp_dir(&rt)?;
    let name = "ato_outside_real_folder.txt";
    let mut tray = DirTray::new(alloc, &rt, folder.as_str());
    assert!(rt; puts(&mut tray, name, b"bytes", Ok(())));
    assert!(rt;
        puts(
            &mut tray,
            "ato_outside_no_folder/file",
            b"",
            Err(TrayError::Failed)
        )
    );
    assert!(rt; tray.faults() == 1);
    let mut shelf = DirShelf::new(&rt, folder.as_str());
    let mut into = Vec::new(alloc);
    assert!(rt; gets(&mut shelf, (name, 5), &mut into, Ok(Got::Whole)));
    assert!(rt; into.as_slice() == b"bytes".as_slice());
    assert!(rt; gets(&mut shelf, (name, 4), &mut into, Ok(Got::TooLong)));
    assert!(rt;
        gets(
            &mut shelf,
            ("ato_outside_no_file", 4),
            &mut into,
            Ok(Got::Missing)
        )
    );
    assert!(rt; gets(&mut shelf, (".", 4), &mut into, Err(ShelfError::Failed)));
    assert!(rt;
        gets(
            &mut shelf,
            ("ato_outside_real_folder.txt/file", 4),
            &mut into,
            Err(ShelfError::Failed)
        )
    );
    assert!(rt; shelf.faults() == 2 && shelf.misses() == 1);
    fs::remove_file(&rt, folder.join(alloc, name)?)?;
    Ok(())
}

/// So many bytes. They repeat after 251, so that no two pieces of a read are alike.
fn long_bytes(alloc: Global, length: usize) -> Result<Vec<u8>, NoMemory> {
    let mut bytes = Vec::new(alloc);
    let mut next = 1u8;
    for _ in 0..length {
        bytes.push(next)?;
        next = if next == 251 { 1 } else { next.wrapping_add(1) };
    }
    Ok(bytes)
}

/// Each file but the first is put in place of a longer one, and some are longer than one read.
/// Lengths of files, each shorter than the one before, around the length of one read.
const LENGTHS: &[usize] = &[20_481, 8_193, 8_192, 4_097, 4_096, 4_095, 5, 1, 0];

#[test]
fn a_real_folder_gives_back_every_byte(rt: HostRuntime) -> Result<(), Fail> {
    let alloc = rt.alloc();
    let folder = env::temp_dir(&rt)?;
    let name = "ato_outside_every_byte.txt";
    let path = folder.join(alloc, name)?;
    let mut tray = DirTray::new(alloc, &rt, folder.as_str());
    let mut shelf = DirShelf::new(&rt, folder.as_str());
    let mut into = Vec::new(alloc);
    for length in LENGTHS {
        let bytes = long_bytes(alloc, *length)?;
        assert!(rt; puts(&mut tray, name, bytes.as_slice(), Ok(())));
        let held = fs::read(&rt, path.as_str())?;
        assert!(rt; held.as_slice() == bytes.as_slice());
        assert!(rt; gets(&mut shelf, (name, *length), &mut into, Ok(Got::Whole)));
        assert!(rt; into.as_slice() == bytes.as_slice());
        assert!(rt;
            *length == 0 || gets(&mut shelf, (name, *length - 1), &mut into, Ok(Got::TooLong))
        );
    }
    assert!(rt; tray.faults() == 0 && shelf.faults() == 0 && shelf.misses() == 0);
    fs::remove_file(&rt, path.as_str())?;
    Ok(())
}

#[test]
fn standard_output_takes_a_line(rt: HostRuntime) {
    let mut sink = OutSink::new(&rt);
    assert!(rt; writes(&mut sink, b"line\n", Ok(5)));
    assert!(rt; sink.faults() == 0);
}

/// A file that reads or writes a byte in each turn but the second, which is interrupted, and in
/// which the turn of number `fails` fails. It ends after three bytes.
#[derive(Drop)]
struct Halting {
    turn: u8,
    fails: u8,
}

impl Halting {
    /// The count of bytes of the next turn.
    fn next(&mut self) -> io::Result<usize> {
        self.turn = self.turn.saturating_add(1);
        if self.turn == self.fails {
            return Err(Error::from(ErrorKind::Other));
        }
        match self.turn {
            2 => Err(Error::from(ErrorKind::Interrupted)),
            1 | 3 | 4 => Ok(1),
            _ => Ok(0),
        }
    }
}

impl Read for Halting {
    fn read(&mut self, buf: &mut [u8]) -> io::Result<usize> {
        let count = self.next()?.min(buf.len());
        buf[..count].fill(b'x');
        Ok(count)
    }
}

impl Write for Halting {
    fn write(&mut self, buf: &[u8]) -> io::Result<usize> {
        Ok(self.next()?.min(buf.len()))
    }

    fn flush(&mut self) -> io::Result<()> {
        Ok(())
    }
}

#[test]
fn a_read_may_be_interrupted_and_may_fail(rt: HostRuntime) {
    let mut into = Vec::new(rt.alloc());
    for (fails, answer) in [(0, Ok(Got::Whole)), (4, Err(ShelfError::Failed))].iter() {
        into.clear();
        let mut file = Halting {
            turn: 0,
            fails: *fails,
        };
        assert!(rt; read_all(&mut file, 3, &mut into) == *answer);
    }
}

#[test]
fn a_write_may_be_interrupted_and_may_fail(rt: HostRuntime) {
    for (fails, bytes, answer) in [(0, "xxx", true), (4, "xxx", false), (0, "xxxx", false)].iter() {
        let mut file = Halting {
            turn: 0,
            fails: *fails,
        };
        assert!(rt; write_all(&mut file, bytes.as_bytes()) == *answer);
    }
}
