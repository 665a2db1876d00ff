ghost use Rattle.std.specs.Prelude.{◌≡◌, ℕ, false, take, IsErrOf, OnOk};
ghost use Rattle.std.specs.Bool.{OnTrue};
ghost use Rattle.std.specs.Path.{path_join};
ghost use Rattle.std.specs.Io.KnownBytes.{Appends};
ghost use Rattle.ato_outside.specs.Causes.{Counts};
ghost use Rattle.ato_outside.specs.Folder.{WritesFile, StopsWriting};

use crate::{System, Tray, TrayError};
use std::alloc::Global;
use std::io::{ErrorKind, Write};
use std::marker::Model;
use std::path::Path;

/// A real folder, whose files it tells nothing of. It keeps an allocator for its paths.
///
/// Contracts see it as the system that it asks, its path and its count of faults.
#[derive(Drop)]
pub struct DirTray<'a, S: System> {
    alloc: Global,
    system: S,
    folder: &'a str,
    faults: u64,
}

impl<'a, S: System> Model for DirTray<'a, S> {
    ghost use Rattle.ato_outside.specs.Folder.{FolderTray, folder_tray_code};

    ghost Value = { FolderTray S };

    ghost coded = { folder_tray_code S.code };

    ghost view = { λ it. record { system = it.system; folder = it.folder.now; faults = it.faults } };
}

impl<'a, S: System> DirTray<'a, S> {
    /// The tray of a folder of a system. It takes no memory and writes nothing.
    ///
    /// A failure of any kind is a fault. Where there is no memory for a path, nothing is touched.
    pub fn new(alloc: Global, system: S, folder: &'a str) -> DirTray<'a, S>
        ensures { result ≡ record { system = system; folder = folder.now; faults = 0 } }
    {
        DirTray {
            alloc,
            system,
            folder,
            faults: 0,
        }
    }

    /// How many calls failed.
    pub fn faults(&self) -> u64
        ensures { result ≡ self.now.faults }
    {
        self.faults
    }
}

/// Writes all of the bytes, and answers whether it could. A write that was interrupted is tried
/// again; every other error is a failure, and so is a write of no byte.
pub(crate) fn write_all<F: Write>(file: &mut F, bytes: &[u8]) -> bool
    ensures all { OnTrue result (Appends (F.contents file.old) (F.contents file.new) bytes.now) }
    ensures first { (n : ℕ) × Appends (F.contents file.old) (F.contents file.new) (take n bytes.now) }
{
    let mut rest = bytes;
    for _ in 0..u64::MAX {
        if rest.is_empty() {
            return true;
        }
        match file.write(rest) {
            Ok(0) => return false,
            Ok(count) => rest = &rest[count..],
            Err(error) => {
                if error.kind() != ErrorKind::Interrupted {
                    return false;
                }
            }
        }
    }
    false
}

/// Creates a file, writes all of the bytes to it and closes it, and answers whether it could.
fn write_file<S: System>(system: &mut S, path: &str, bytes: &[u8]) -> bool
    ensures wrote { OnTrue result (WritesFile S.creates S.closes S.File.contents system.old path.now bytes.now system.new) }
    ensures failed { result ≡ false → StopsWriting S.creates S.closes S.File.contents system.old path.now bytes.now system.new }
{
    match system.create(path) {
        Ok(mut file) => {
            let written = write_all(&mut file, bytes);
            system.close(file);
            written
        }
        Err(_) => false,
    }
}

impl<'a, S: System> Tray for DirTray<'a, S> {
    ghost use Rattle.std.specs.Prelude.{None};

    ghost files = { λ _. None };

    ghost faults = { λ s. s.faults };

    fn put(&mut self, name: &str, bytes: &[u8]) -> Result<(), TrayError>
        ensures faults { Counts self.old.faults self.new.faults (IsErrOf result TrayError.Failed) }
        ensures folder { self.new.folder ≡ self.old.folder }
        // Only where the file that this call created at the path of the name took all of the bytes and was closed is the put
        // answered as done.
        ensures wrote { OnOk result (WritesFile S.creates S.closes S.File.contents self.old.system (path_join self.old.folder name.now) bytes.now self.new.system) }
        // Only where the path was refused, or its file took only the first of the bytes, is it a failure.
        ensures failed { result ≡ Err TrayError.Failed → StopsWriting S.creates S.closes S.File.contents self.old.system (path_join self.old.folder name.now) bytes.now self.new.system }
        ensures untouched { result ≡ Err TrayError.NoMemory → self.new.system ≡ self.old.system }
    {
        let Ok(path) = Path::new(self.folder).join(self.alloc, name) else {
            return Err(TrayError::NoMemory);
        };
        if write_file(&mut self.system, path.as_str(), bytes) {
            return Ok(());
        }
        self.faults = self.faults.saturating_add(1);
        Err(TrayError::Failed)
    }
}
