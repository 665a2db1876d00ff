ghost use Rattle.std.specs.Prelude.{◌≡◌, ◌≢◌, option_map, IsErrOf};
ghost use Rattle.std.specs.FinMap as map;
ghost use Rattle.ato_outside.specs.Causes.{Counts};
ghost use Rattle.ato_outside.specs.Tray.{Puts};

use crate::entries::Entries;
use crate::{Tray, TrayError};
use std::alloc::Global;
use std::marker::Model;

/// A tray in memory that never fails.
///
/// Contracts see it as its files.
#[derive(Debug, Drop)]
pub struct SureTray {
    files: Entries,
}

impl Model for SureTray {
    ghost use Rattle.ato_outside.specs.Files.{Files, files_code};

    ghost Value = { Files };

    ghost coded = { files_code };

    ghost view = { λ it. it.files };
}

impl SureTray {
    /// A tray without files. It takes no memory.
    pub fn new(alloc: Global) -> SureTray
        ensures { result ≡ map.empty }
    {
        SureTray {
            files: Entries::new(alloc),
        }
    }

    /// What a name holds, where something was put there.
    pub fn get(&self, name: &str) -> Option<&[u8]>
        ensures { option_map (λ bytes. bytes.now) result ≡ map.get self.now name.now }
    {
        self.files.bytes_of(name)
    }
}

impl Tray for SureTray {
    ghost use Rattle.std.specs.Prelude.{Some};

    ghost files = { λ s. Some s };

    ghost faults = { λ _. 0 };

    fn put(&mut self, name: &str, bytes: &[u8]) -> Result<(), TrayError>
        ensures told { Puts self.old self.new name.now bytes.now result }
        ensures faults { Counts 0 0 (IsErrOf result TrayError.Failed) }
        ensures sure { result ≢ Err TrayError.Failed }
    {
        match self.files.put(name, bytes) {
            Ok(()) => Ok(()),
            Err(_) => Err(TrayError::NoMemory),
        }
    }
}
