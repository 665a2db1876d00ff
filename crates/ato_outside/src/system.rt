ghost use Rattle.std.specs.Prelude.{◌≡◌, ◌↔◌, ℕ, List, Result};
ghost use Rattle.ato_outside.specs.declared.system.OpenError.{OpenError};

use std::fs;
use std::io::{ErrorKind, Read, Write};
use std::rt::Files;

/// Why a system does not open a path.
#[derive(Clone, Copy, Debug, PartialEq, Eq)]
pub enum OpenError {
    /// There is no such file.
    Missing,
    /// Every other reason.
    Refused,
}

/// The calls on a system's files that this crate makes.
///
/// What each call does is a relation that an implementation tells or leaves open. Code that is
/// generic over it can show that a call took place only by making it, and how many took place by
/// the states before and after. An opened file is read or written from where it stands, and nothing
/// else can be done to it.
pub trait System {
    /// A file that was opened.
    type File: Read + Write + Drop;

    /// Opening a path for reading: the state before, the path, the answer, and the state after.
    ghost opens: { Self → List ℕ → Result Self.File OpenError → Self → Type 0 };

    /// Opening a path for writing, in place of a file that is there, likewise.
    ghost creates: { Self → List ℕ → Result Self.File OpenError → Self → Type 0 };

    /// Closing a file that was written: the state before, the file as it is left, and the state after.
    ghost closes: { Self → Self.File → Self → Type 0 };

    /// Opens a path for reading.
    fn open(&mut self, path: &str) -> Result<Self::File, OpenError>
        ensures { opens self.old path.now result self.new };

    /// Opens a path for writing, in place of a file that is there.
    fn create(&mut self, path: &str) -> Result<Self::File, OpenError>
        ensures { creates self.old path.now result self.new };

    /// Closes a file that was written.
    fn close(&mut self, file: Self::File)
        ensures { closes self.old file self.new };
}

/// What an error of the library means for a path that was to be opened.
fn refusal(kind: ErrorKind) -> OpenError
    ensures { (result ≡ OpenError.Missing) ↔ (kind ≡ ErrorKind.NotFound) }
{
    if kind == ErrorKind::NotFound {
        OpenError::Missing
    } else {
        OpenError::Refused
    }
}

/// The real system. The library tells nothing of what its calls do, so nothing is told here.
impl<'a, R: Files> System for &'a R {
    ghost use Rattle.std.specs.Prelude.{⊤};

    type File = R::File;

    ghost opens = { λ _ _ _ _. ⊤ };

    ghost creates = { λ _ _ _ _. ⊤ };

    ghost closes = { λ _ _ _. ⊤ };

    fn open(&mut self, path: &str) -> Result<R::File, OpenError> {
        match fs::open(*self, path) {
            Ok(file) => Ok(file),
            Err(error) => Err(refusal(error.kind())),
        }
    }

    fn create(&mut self, path: &str) -> Result<R::File, OpenError> {
        match fs::create(*self, path) {
            Ok(file) => Ok(file),
            Err(error) => Err(refusal(error.kind())),
        }
    }

    fn close(&mut self, _file: R::File) {}
}
