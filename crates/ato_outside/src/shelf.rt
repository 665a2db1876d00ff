ghost use Rattle.std.specs.Prelude.{◌≡◌, ℕ, List, Option, Result, IfSome, IsErrOf};
ghost use Rattle.std.specs.FinMap as map;
ghost use Rattle.ato_outside.specs.Files.{Files};
ghost use Rattle.ato_outside.specs.Causes.{Counts};
ghost use Rattle.ato_outside.specs.Shelf.{IsAnswer, Fits};
ghost use Rattle.ato_outside.specs.declared.shelf.Got.{Got};
ghost use Rattle.ato_outside.specs.declared.shelf.ShelfError.{ShelfError};

use thiserror::Error;

/// What a shelf answers for a name.
#[derive(Clone, Copy, Debug, PartialEq, Eq)]
pub enum Got {
    /// The whole file was read.
    Whole,
    /// There is no file of this name.
    Missing,
    /// The file is longer than the limit.
    TooLong,
}

/// Why a shelf gives no answer.
#[derive(Clone, Copy, Debug, PartialEq, Eq, Error)]
pub enum ShelfError {
    /// The file could not be read. The count of faults rises.
    #[error("the file could not be read")]
    Failed,
    /// There was no memory for the file's bytes. No count rises.
    #[error("out of memory")]
    NoMemory,
}

/// Where files come from.
///
/// What a call does is a relation that an implementation tells. Code that is generic over it can
/// show that a call took place only by making it.
pub trait Shelf {
    /// A call: the state before, the name, the limit, the answer with the bytes that came with it,
    /// and the state after.
    ghost gets: { Self → List ℕ → ℕ → Result Got ShelfError → List ℕ → Self → Type 0 };

    /// The files that it holds, where it tells them.
    ghost files: { Self → Option Files };

    /// How often it failed.
    ghost faults: { Self → ℕ };

    /// How often a name was missing.
    ghost misses: { Self → ℕ };

    /// Reads the file of this name into `into`, where it has at most `limit` bytes.
    ///
    /// After Whole, `into` holds the file's bytes, and after every other answer it is empty. Only a
    /// call that answers Missing raises the count of misses, and only one that answers Failed the
    /// count of faults. The files stay as they are.
    fn get(&mut self, name: &str, limit: usize, into: &mut Vec<u8>) -> Result<Got, ShelfError>
        ensures asked { gets self.old name.now limit result into.new.items self.new }
        ensures same { files self.new ≡ files self.old }
        ensures told { IfSome (files self.old)
            (λ held. IsAnswer (map.get held name.now) limit result into.new.items) }
        ensures room { Fits limit result into.new.items }
        ensures faults { Counts (faults self.old) (faults self.new)
            (IsErrOf result ShelfError.Failed) }
        ensures misses { Counts (misses self.old) (misses self.new) (result ≡ Ok Got.Missing) };
}
