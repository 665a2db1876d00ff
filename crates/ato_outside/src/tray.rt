ghost use Rattle.std.specs.Prelude.{ℕ, Option, IsErrOf};
ghost use Rattle.ato_outside.specs.Files.{Files};
ghost use Rattle.ato_outside.specs.Causes.{Counts};
ghost use Rattle.ato_outside.specs.Tray.{PutsWhereTold};

use thiserror::Error;

/// Why a tray did not take a file.
#[derive(Clone, Copy, Debug, PartialEq, Eq, Error)]
pub enum TrayError {
    /// The file could not be written whole. The count of faults rises.
    #[error("the file could not be written")]
    Failed,
    /// There was no memory for the call, which changed nothing. No count rises.
    #[error("out of memory")]
    NoMemory,
}

/// Where files go.
pub trait Tray {
    /// The files written, where it tells them.
    ghost files: { Self → Option Files };

    /// How often it failed.
    ghost faults: { Self → ℕ };

    /// Puts a file of this name, in place of one that was there.
    ///
    /// After Ok the name holds the bytes, after Failed a prefix of them, and after NoMemory nothing
    /// changed. Every other name stays as it was. Only a call that answers Failed raises the count
    /// of faults.
    fn put(&mut self, name: &str, bytes: &[u8]) -> Result<(), TrayError>
        ensures told { PutsWhereTold (files self.old) (files self.new) name.now bytes.now result }
        ensures faults { Counts (faults self.old) (faults self.new)
            (IsErrOf result TrayError.Failed) };
}
