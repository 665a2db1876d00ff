use crate::runs::{NO_ROWS, built, code_of, files, wide_sink};
use ato_base::{List, NoMemory};
use ato_outside::{MemShelf, MemSink, MemTray, Sink, SinkFailed, SureShelf, SureTray};
use std::alloc::Global;
use std::test::Fail;

const SOURCE: &[u8] = b"component E:\n    pin 1\n";

const JOB: &str = "build main.ato:E cat.csv";

const SUMMARY: &str =
    "result built\nnets 1\nparts 1\nslots 0\nvariables 0\nchecks 0\ngiven 0\nnodes 0\n";

/// A list of one item.
fn one<T: Copy>(alloc: Global, item: T) -> Result<List<T>, NoMemory> {
    let mut items = List::new(alloc);
    items.push(item)?;
    Ok(items)
}

/// A file that a run without a failure puts.
fn whole(alloc: Global, name: &str) -> Result<Vec<u8>, NoMemory> {
    let (_, tray, _) = built(alloc, SOURCE, JOB)?;
    let mut bytes = Vec::new(alloc);
    if let Some(put) = tray.get(name) {
        bytes.extend_from_slice(put)?;
    }
    Ok(bytes)
}

/// A job with a block that is not there, and what is printed of it.
const OTHER: &str = "build main.ato:F cat.csv";

const UNKNOWN: &str = "fault F11 NameUnknown word 1\n";

/// What of a file is put.
#[derive(Clone, Copy)]
enum Put {
    Nothing,
    Prefix,
    Whole,
}

use Put::{Nothing, Prefix, Whole};

/// How many bytes a failing put keeps.
const KEPT: usize = 5;

/// What is held of a file.
fn held(file: &[u8], put: Put) -> Option<&[u8]> {
    match put {
        Nothing => None,
        Prefix => file.get(..KEPT),
        Whole => Some(file),
    }
}

/// Words, the numbers of the read, the put and the print that fail, and the status with what is printed and
/// what is put of the netlist and of the certificate.
type Case = (&'static str, u32, u32, u32, u8, &'static str, Put, Put);

/// Runs in which some calls fail.
const CASES: &[Case] = &[
    (JOB, 0, 0, 0, 0, SUMMARY, Whole, Whole),
    (JOB, 3, 3, 2, 0, SUMMARY, Whole, Whole),
    (JOB, 1, 0, 0, 5, "read fault main.ato\n", Nothing, Nothing),
    (JOB, 2, 0, 0, 5, "read fault cat.csv\n", Nothing, Nothing),
    (JOB, 1, 1, 2, 5, "read fault main.ato\n", Nothing, Nothing),
    (JOB, 1, 0, 1, 6, "", Nothing, Nothing),
    (JOB, 0, 1, 0, 6, "write fault out.net\n", Prefix, Nothing),
    (JOB, 0, 2, 0, 6, "write fault out.cert\n", Whole, Prefix),
    (JOB, 0, 1, 4, 6, "write fault out.net\n", Prefix, Nothing),
    (JOB, 0, 1, 3, 6, "write fault out.net", Prefix, Nothing),
    (JOB, 0, 1, 2, 6, "write fault ", Prefix, Nothing),
    (JOB, 0, 1, 1, 6, "", Prefix, Nothing),
    (JOB, 0, 0, 1, 6, "", Whole, Whole),
    (OTHER, 2, 0, 1, 6, "", Nothing, Nothing),
    (OTHER, 2, 0, 0, 1, UNKNOWN, Nothing, Nothing),
    ("make", 1, 1, 1, 6, "", Nothing, Nothing),
];

/// A shelf whose read of this number fails.
fn failing_shelf(alloc: Global, read: u32) -> Result<MemShelf, NoMemory> {
    let held = files(alloc, SOURCE, NO_ROWS)?;
    Ok(MemShelf::new(held, one(alloc, read)?))
}

/// A sink whose write of this number fails.
fn failing_sink(alloc: Global, print: u32) -> Result<MemSink, NoMemory> {
    MemSink::new(alloc, 200, one(alloc, print)?)
}

/// A tray that keeps so many bytes of the put of this number, which fails.
fn failing_tray(alloc: Global, put: u32, kept: u32) -> Result<MemTray, NoMemory> {
    Ok(MemTray::new(alloc, one(alloc, (put, kept))?))
}

/// What a run gives where the calls of these numbers fail.
fn failing(
    alloc: Global,
    line: &str,
    read: u32,
    put: u32,
    print: u32,
) -> Result<(u8, MemTray, MemSink), NoMemory> {
    let mut shelf = failing_shelf(alloc, read)?;
    let mut tray = failing_tray(alloc, put, KEPT as u32)?;
    let mut sink = failing_sink(alloc, print)?;
    let code = code_of(alloc, line, &mut shelf, &mut tray, &mut sink)?;
    Ok((code, tray, sink))
}

/// Whether a run with the failures of a case ends as it says.
fn ends(alloc: Global, case: &Case, netlist: &[u8], certificate: &[u8]) -> Result<bool, NoMemory> {
    let (line, read, put, print, code, printed, net, cert) = *case;
    let (found, tray, sink) = failing(alloc, line, read, put, print)?;
    Ok(
        found == code
            && sink.written() == printed.as_bytes()
            && tray.get("out.net") == held(netlist, net)
            && tray.get("out.cert") == held(certificate, cert),
    )
}

#[test]
fn each_failing_call_is_told(rt: HostRuntime) -> Result<(), Fail> {
    let alloc = rt.alloc();
    let netlist = whole(alloc, "out.net")?;
    let certificate = whole(alloc, "out.cert")?;
    for (number, case) in CASES.iter().enumerate() {
        assert!(rt; ends(alloc, case, &netlist, &certificate)?, "case {number}");
    }
    Ok(())
}

/// Whether a run whose first put fails after so many bytes tells it and leaves those bytes.
fn stops_after(alloc: Global, netlist: &[u8], kept: u32) -> Result<bool, NoMemory> {
    let mut shelf = SureShelf::new(files(alloc, SOURCE, NO_ROWS)?);
    let mut tray = failing_tray(alloc, 1, kept)?;
    let mut sink = wide_sink(alloc)?;
    let found = code_of(alloc, JOB, &mut shelf, &mut tray, &mut sink)?;
    let most = netlist.len().min(kept as usize);
    Ok(
        found == 6
            && sink.written() == b"write fault out.net\n".as_slice()
            && tray.get("out.net") == Some(&netlist[..most]),
    )
}

#[test]
fn a_put_may_fail_after_each_length(rt: HostRuntime) -> Result<(), Fail> {
    let alloc = rt.alloc();
    let netlist = whole(alloc, "out.net")?;
    let end: u32 = 300;
    assert!(rt; netlist.len() < end as usize);
    for kept in 0..end {
        assert!(rt; stops_after(alloc, &netlist, kept)?, "{kept}");
    }
    Ok(())
}

/// A sink that takes a few bytes a call, and nothing where its room is full.
#[derive(Drop)]
struct SlowSink {
    bytes: Vec<u8>,
    most: usize,
    room: usize,
    faults: u64,
}

impl Sink for SlowSink {
    ghost use Rattle.std.specs.Prelude.{None};

    ghost written = { λ _. None };

    ghost faults = { λ sink. sink.faults };

    fn write(&mut self, piece: &[u8]) -> Result<usize, SinkFailed> {
        let count = self.most.min(self.room).min(piece.len());
        if self.bytes.extend_from_slice(&piece[..count]).is_err() {
            self.faults = self.faults.saturating_add(1);
            return Err(SinkFailed);
        }
        if count == 0 && piece.len() > 0 {
            self.faults = self.faults.saturating_add(1);
        }
        self.room -= count;
        Ok(count)
    }
}

/// Whether a run over a sink that takes so many bytes a call, and so many in all, ends as it should.
fn prints_up_to(alloc: Global, netlist: &[u8], most: usize, room: usize) -> Result<bool, NoMemory> {
    let mut shelf = SureShelf::new(files(alloc, SOURCE, NO_ROWS)?);
    let mut tray = SureTray::new(alloc);
    let mut sink = SlowSink {
        bytes: Vec::new(alloc),
        most,
        room,
        faults: 0,
    };
    let found = code_of(alloc, JOB, &mut shelf, &mut tray, &mut sink)?;
    let size = SUMMARY.len();
    let code = if room < size { 6 } else { 0 };
    Ok(
        found == code
            && sink.bytes.as_slice() == &SUMMARY.as_bytes()[..room.min(size)]
            && tray.get("out.net") == Some(netlist),
    )
}

#[test]
fn a_print_may_go_in_pieces_and_stop(rt: HostRuntime) -> Result<(), Fail> {
    let alloc = rt.alloc();
    let netlist = whole(alloc, "out.net")?;
    for most in [1, 3, 200].iter() {
        for room in 0..SUMMARY.len() + 2 {
            assert!(rt;
                prints_up_to(alloc, &netlist, *most, room)?,
                "{most} {room}"
            );
        }
    }
    Ok(())
}
