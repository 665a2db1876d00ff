//! Sets of rational values that are made of intervals.
ghost use Rattle.std.specs.Prelude.{◌≡◌, [], ◌∷◌, IfOk};
ghost use Rattle.ato_interval.specs.Sets.{AreRising};

mod joining;
mod meeting;
mod reading;

use crate::Interval;
use ato_base::{List, NoMemory};
use ato_frac::Exact;
use std::alloc::Global;
use std::marker::Model;

/// A set of rational values: closed intervals in rising order, of which no two touch.
///
/// It stands for all rational values in its parts, also where the type of its ends has only whole
/// numbers. It keeps the allocator that it was made with.
#[derive(Debug, Drop)]
pub struct IntervalSet<Q: Exact> {
    alloc: Global,
    parts: List<Interval<Q>>,
}

impl<Q: Exact> Model for IntervalSet<Q> {
    ghost use Rattle.std.specs.Prelude.{List};
    ghost use Rattle.ato_interval.specs.Ends.{Ends};
    ghost use Rattle.ato_interval.specs.Sets.{AreRising};

    ghost Value = { List (Ends Q) };

    ghost view = { λ it. it.parts };

    ghost invariant = { λ it. AreRising Q.value it.parts };
}

impl<Q: Exact> IntervalSet<Q> {
    /// The empty set. It takes no memory.
    pub fn empty(alloc: Global) -> IntervalSet<Q>
        ensures { result ≡ [] }
    {
        IntervalSet {
            alloc,
            parts: List::new(alloc),
        }
    }

    /// The set of one interval's values.
    pub fn one(alloc: Global, part: Interval<Q>) -> Result<IntervalSet<Q>, NoMemory>
        ensures { IfOk result (λ r. r ≡ part ∷ []) }
    {
        let mut parts = List::new(alloc);
        // reading an end tells that the low end is not above the high end
        let _low = part.low();
        parts.push(part)?;
        Ok(IntervalSet { alloc, parts })
    }

    /// The parts, in rising order.
    pub fn parts(&self) -> &[Interval<Q>]
        ensures parts { result.now ≡ self.now }
        ensures rising { AreRising Q.value self.now }
    {
        self.parts.as_slice()
    }
}
