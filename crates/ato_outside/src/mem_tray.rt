ghost use Rattle.std.specs.Prelude.{◌≡◌, option_map, IsErrOf};
ghost use Rattle.std.specs.FinMap as map;
ghost use Rattle.ato_outside.specs.Causes.{Counts};
ghost use Rattle.ato_outside.specs.Tray.{Puts};
ghost use Rattle.ato_outside.specs.MemoryTray.{PutsByNumber, next_kept};

use crate::entries::Entries;
use crate::numbered::kept_bytes;
use crate::{Tray, TrayError};
use ato_base::List;
use std::alloc::Global;
use std::marker::Model;

/// A tray in memory, which fails the calls of the given numbers after so many bytes.
///
/// Contracts see it as its files, the numbers with their bytes, the calls so far, and its count of
/// faults.
#[derive(Debug, Drop)]
pub struct MemTray {
    files: Entries,
    fail: List<(u32, u32)>,
    calls: u64,
    faults: u64,
}

impl Model for MemTray {
    ghost use Rattle.ato_outside.specs.MemoryTray.{MemoryTray, tray_code};

    ghost Value = { MemoryTray };

    ghost coded = { tray_code };

    ghost view = { λ it. record {
      files = it.files;
      fail = it.fail;
      calls = it.calls;
      faults = it.faults;
    } };
}

impl MemTray {
    /// A tray without files. It takes no memory. Each `put` whose number, from 1, stands first in a
    /// pair of `fail` keeps as many bytes as the second says, or all that there are, and answers
    /// Failed; or NoMemory where it can not keep them. Of several pairs for a number the first
    /// counts. No other `put` answers Failed.
    pub fn new(alloc: Global, fail: List<(u32, u32)>) -> MemTray
        ensures { result ≡ record { files = map.empty; fail = fail; calls = 0; faults = 0 } }
    {
        MemTray {
            files: Entries::new(alloc),
            fail,
            calls: 0,
            faults: 0,
        }
    }

    /// What a name holds, where something was put there.
    pub fn get(&self, name: &str) -> Option<&[u8]>
        ensures { option_map (λ bytes. bytes.now) result ≡ map.get self.now.files name.now }
    {
        self.files.bytes_of(name)
    }

    /// How many calls failed.
    pub fn faults(&self) -> u64
        ensures { result ≡ self.now.faults }
    {
        self.faults
    }
}

impl Tray for MemTray {
    ghost use Rattle.std.specs.Prelude.{Some};

    ghost files = { λ s. Some s.files };

    ghost faults = { λ s. s.faults };

    fn put(&mut self, name: &str, bytes: &[u8]) -> Result<(), TrayError>
        ensures told { Puts self.old.files self.new.files name.now bytes.now result }
        ensures faults { Counts self.old.faults self.new.faults (IsErrOf result TrayError.Failed) }
        ensures numbered { PutsByNumber (next_kept self.old) self.old self.new name.now bytes.now
            result }
    {
        self.calls = self.calls.saturating_add(1);
        let Some(kept) = kept_bytes(self.fail.as_slice(), self.calls) else {
            return match self.files.put(name, bytes) {
                Ok(()) => Ok(()),
                Err(_) => Err(TrayError::NoMemory),
            };
        };
        let kept = bytes.len().min(kept as usize);
        if self.files.put(name, &bytes[..kept]).is_err() {
            return Err(TrayError::NoMemory);
        }
        self.faults = self.faults.saturating_add(1);
        Err(TrayError::Failed)
    }
}
