ghost use Rattle.std.specs.Prelude.{◌≡◌, [], ◌≤◌, IfOk, length};
ghost use Rattle.ato_outside.specs.Causes.{Counts};
ghost use Rattle.ato_outside.specs.Sink.{Writes, IsSinkFault};
ghost use Rattle.ato_outside.specs.MemorySink.{is_refused, WritesByNumber};

use crate::numbered::is_listed;
use crate::{Sink, SinkFailed};
use ato_base::{List, NoMemory};
use std::alloc::Global;
use std::marker::Model;

/// A sink in memory, with room for so many bytes, which fails the calls of the given numbers.
///
/// Contracts see it as the bytes written, the room left, the numbers, the calls so far, and its
/// count of faults.
#[derive(Debug, Drop)]
pub struct MemSink {
    bytes: Vec<u8>,
    room: usize,
    fail: List<u32>,
    calls: u64,
    faults: u64,
}

impl Model for MemSink {
    ghost use Rattle.std.specs.Prelude.{◌+◌, ◌≤◌, vec_len, vec_capacity};
    ghost use Rattle.ato_outside.specs.MemorySink.{MemorySink, sink_code};

    ghost Value = { MemorySink };

    ghost coded = { sink_code };

    ghost view = { λ it. record {
      written = it.bytes.items;
      room = it.room;
      fail = it.fail;
      calls = it.calls;
      faults = it.faults;
    } };

    ghost invariant = { λ it. vec_len it.bytes + it.room ≤ vec_capacity it.bytes };
}

impl MemSink {
    /// A sink that has room for so many bytes, which it reserves. Each `write` whose number, from 1,
    /// stands in `fail` fails, and so does each whose piece does not fit into the room left.
    pub fn new(alloc: Global, room: usize, fail: List<u32>) -> Result<MemSink, NoMemory>
        ensures { IfOk result (λ sink. sink ≡ record {
          written = [];
          room = room;
          fail = fail;
          calls = 0;
          faults = 0;
        }) }
    {
        Ok(MemSink {
            bytes: Vec::with_capacity(alloc, room)?,
            room,
            fail,
            calls: 0,
            faults: 0,
        })
    }

    /// The bytes written.
    pub fn written(&self) -> &[u8]
        ensures { result.now ≡ self.now.written }
    {
        self.bytes.as_slice()
    }

    /// How many calls failed.
    pub fn faults(&self) -> u64
        ensures { result ≡ self.now.faults }
    {
        self.faults
    }
}

impl Sink for MemSink {
    ghost use Rattle.std.specs.Prelude.{Some};

    ghost written = { λ s. Some s.written };

    ghost faults = { λ s. s.faults };

    fn write(&mut self, piece: &[u8]) -> Result<usize, SinkFailed>
        ensures bound { IfOk result (λ n. n ≤ length piece.now) }
        ensures told { Writes self.old.written self.new.written piece.now result }
        ensures faults { Counts self.old.faults self.new.faults (IsSinkFault piece.now result) }
        ensures numbered { WritesByNumber (is_refused self.old piece.now) self.old self.new piece.now
            result }
    {
        self.calls = self.calls.saturating_add(1);
        if let Some(left) = self.room.checked_sub(piece.len()) {
            let fails = is_listed(self.fail.as_slice(), self.calls);
            if !fails && self.bytes.extend_from_slice(piece).is_ok() {
                self.room = left;
                return Ok(piece.len());
            }
        }
        self.faults = self.faults.saturating_add(1);
        Err(SinkFailed)
    }
}
