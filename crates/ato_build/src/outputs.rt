//! The files of a build, put one after another.
ghost use Rattle.std.specs.Prelude.{◌≡◌, IsSome, IsSomeAnd};
ghost use Rattle.ato_outside.specs.Causes.{Counts};
ghost use Rattle.ato_build.specs.Outputs.{PutsInOrder};

use ato_base::{List, Text};
use ato_outside::{Tray, TrayError};

/// A file that is put.
#[derive(Debug, Drop)]
pub(crate) struct Output {
    pub name: Text,
    pub bytes: List<u8>,
}

/// At which file the tray stopped, and why.
#[derive(Debug, Drop)]
pub(crate) struct Stop {
    pub name: Text,
    pub error: TrayError,
}

/// Puts the files in their order, up to one at which the tray stops. It takes no memory of its own.
pub(crate) fn put_all<T: Tray>(tray: &mut T, outputs: Vec<Output>) -> Option<Stop>
    ensures puts { PutsInOrder (T.files tray.old) (T.files tray.new) outputs.items result }
    ensures faults { Counts (T.faults tray.old) (T.faults tray.new) (IsSomeAnd result (λ stop. stop.error ≡ TrayError.Failed)) }
{
    for output in outputs {
        let Output { name, bytes } = output;
        match tray.put(name.as_str(), bytes.as_slice()) {
            Ok(()) => {}
            Err(error) => return Some(Stop { name, error }),
        }
    }
    None
}
