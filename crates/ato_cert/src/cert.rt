//! Certificates as trees.
ghost use Rattle.std.specs.Prelude.{◌≡◌, IfOk};
ghost use Rattle.ato_cert.specs.declared.cert.PickTree.TheVariants as variants;

use ato_base::{List, NoMemory};
use ato_frac::Frac;
use sqlite_items::Boxed;
use std::alloc::Global;

/// What a tree over the picks shows.
#[derive(Clone, Copy, Debug, PartialEq, Eq)]
pub enum Verdict {
    /// No pick is good.
    Refuted,
}

/// A tree over the candidates that are left. A row number divides them, and each end closes its share.
#[derive(Drop)]
pub enum PickTree {
    /// The slot of this number has no candidate left.
    Empty(u32),
    /// The candidates of a slot up to a row number, and those above it.
    ByRow {
        slot: u32,
        row: u32,
        low: Boxed<PickTree>,
        high: Boxed<PickTree>,
    },
    /// The check of this number fails at a point of every candidate left.
    Fails {
        check: u32,
        point: List<Frac>,
    },
}

/// A tree over the ranges of a picked candidate.
#[derive(Clone, Copy, Debug, PartialEq, Eq)]
pub enum BoxTree {
    /// The check holds over the whole range.
    Holds,
}

/// What a certificate shows.
#[derive(Drop)]
pub enum Proof {
    /// A pick, with a tree for each check.
    Built {
        pick: List<u32>,
        boxes: List<BoxTree>,
    },
    /// A tree over all picks.
    Tree {
        verdict: Verdict,
        tree: PickTree,
    },
}

/// A certificate, with the number of nodes that it may have.
#[derive(Drop)]
pub struct Cert {
    pub steps: u32,
    pub proof: Proof,
}

impl PickTree {
    /// A tree over the two sides of a slot's row number.
    pub fn divided(
        alloc: Global,
        slot: u32,
        row: u32,
        low: PickTree,
        high: PickTree,
    ) -> Result<PickTree, NoMemory>
        ensures { IfOk result (λ tree. tree ≡ variants.ByRow slot row low high) }
    {
        Ok(PickTree::ByRow {
            slot,
            row,
            low: Boxed::new(alloc, low)?,
            high: Boxed::new(alloc, high)?,
        })
    }
}
