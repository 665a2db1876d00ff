//! The least of the faults that are noted.
ghost use Rattle.std.specs.Prelude.{◌≡◌, [], ◌∷◌, None, if◌then◌else◌};
ghost use Rattle.ato_files.specs.Faults.{fault, is_before};
ghost use Rattle.ato_files.specs.Noted.{noted, with_fault};

use ato_base::{Fault, FaultKind, List, Place, Span};
use std::alloc::Global;
use std::marker::Model;

/// A fault in a source, without a second place.
#[derive(Clone, Copy, Debug, PartialEq, Eq)]
struct Found {
    /// What kind of fault.
    kind: FaultKind,
    /// Where it stands.
    at: Span,
}

impl Found {
    /// Whether a fault comes before another: by file, then by offset, then by kind.
    fn is_before(&self, other: &Found) -> bool
        ensures { result ≡ is_before (fault self.now.kind self.now.at) (fault other.now.kind other.now.at) }
    {
        let file = self.at.file.0;
        let other_file = other.at.file.0;
        if file != other_file {
            return file < other_file;
        }
        if self.at.start != other.at.start {
            return self.at.start < other.at.start;
        }
        self.kind.number() < other.kind.number()
    }
}

/// The least of the faults that were noted; of equal ones the first.
///
/// Contracts see it as that fault.
#[derive(Debug, Drop)]
pub(crate) struct Least {
    /// The least one so far.
    found: Option<Found>,
}

impl Model for Least {
    ghost use Rattle.std.specs.Prelude.{Option};
    ghost use Rattle.std.specs.Option.{option_map};
    ghost use Rattle.ato_base.specs.declared.faults.Fault.{Fault};
    ghost use Rattle.ato_files.specs.Faults.{fault};

    ghost Value = { Option Fault };

    ghost view = { λ it. option_map (λ found. fault found.kind found.at) it.found };
}

impl Least {
    /// Nothing noted.
    pub(crate) fn new() -> Least
        ensures { result ≡ None }
    {
        Least { found: None }
    }

    /// Notes a fault at some bytes.
    pub(crate) fn note(&mut self, kind: FaultKind, at: Span)
        ensures { self.new ≡ with_fault self.old (fault kind at) }
    {
        let new = Found { kind, at };
        let kept = match self.found {
            None => new,
            Some(kept) => { if new.is_before(&kept) { new } else { kept } }
        };
        self.found = Some(kept);
    }

    /// Notes a fault at some bytes, where there is one.
    pub(crate) fn note_if(&mut self, is_fault: bool, kind: FaultKind, at: Span)
        ensures { self.new ≡ noted self.old (if is_fault then fault kind at ∷ [] else []) }
    {
        if is_fault {
            self.note(kind, at);
        }
    }

    /// Notes a fault at some bytes, unless all is right.
    pub(crate) fn note_unless(&mut self, is_right: bool, kind: FaultKind, at: Span)
        ensures { self.new ≡ noted self.old (if is_right then [] else fault kind at ∷ []) }
    {
        if !is_right {
            self.note(kind, at);
        }
    }

    /// The fault that was kept.
    pub(crate) fn fault(&self, alloc: Global) -> Option<Fault>
        ensures { result ≡ self.now }
    {
        match self.found {
            None => None,
            Some(found) => Some(Fault {
                kind: found.kind,
                at: Place::Source(found.at),
                other: None,
                path: List::new(alloc),
            }),
        }
    }
}
