//! The outside of the compiler: the shelf that files come from, the tray that they go to, and the
//! sink on which lines are printed. What comes in is a name with a limit for a shelf, a name with
//! bytes for a tray, and a piece of bytes for a sink; what goes out is the answer, with the file's
//! bytes for a shelf. The contract of the three traits is `IsAnswer` and `Fits` of `specs/Shelf`,
//! `PutsWhereTold` of `specs/Tray`, and `WritesWhereTold` and `IsSinkFault` of `specs/Sink`, each
//! with `Counts` of `specs/Causes`, which says when a count of faults or misses rises. The
//! implementations in memory tell what they hold, and fail by number as `GetsByNumber`,
//! `PutsByNumber` and `WritesByNumber` say, or never. Those over a real folder and standard output
//! tell no content; `specs/Folder` says what a folder's do with the file that they open, over any
//! `System`.
#![tactic(auto)]

mod dir_shelf;
mod dir_tray;
mod entries;
mod mem_shelf;
mod mem_sink;
mod mem_tray;
mod numbered;
mod out_sink;
mod shelf;
mod sink;
mod sure_shelf;
mod sure_tray;
mod system;
#[cfg(test)]
mod tests;
mod tray;

pub use dir_shelf::DirShelf;
pub use dir_tray::DirTray;
pub use mem_shelf::MemShelf;
pub use mem_sink::MemSink;
pub use mem_tray::MemTray;
pub use out_sink::OutSink;
pub use shelf::{Got, Shelf, ShelfError};
pub use sink::{Sink, SinkFailed};
pub use sure_shelf::SureShelf;
pub use sure_tray::SureTray;
pub use system::{OpenError, System};
pub use tray::{Tray, TrayError};
