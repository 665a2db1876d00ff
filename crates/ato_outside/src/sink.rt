ghost use Rattle.std.specs.Prelude.{ℕ, ◌≤◌, List, Option, IfOk, length};
ghost use Rattle.ato_outside.specs.Causes.{Counts};
ghost use Rattle.ato_outside.specs.Sink.{WritesWhereTold, IsSinkFault};

/// A sink failed and took nothing.
#[derive(Clone, Copy, Debug, PartialEq, Eq)]
pub struct SinkFailed;

/// Where lines are printed.
pub trait Sink {
    /// The bytes written, where it tells them.
    ghost written: { Self → Option (List ℕ) };

    /// How often it failed.
    ghost faults: { Self → ℕ };

    /// Appends the first bytes of a piece, and answers how many it took.
    ///
    /// Where it fails it takes nothing. An answer of 0 for a piece that is not empty is a fault of
    /// the sink too. Only these two raise the count of faults.
    fn write(&mut self, piece: &[u8]) -> Result<usize, SinkFailed>
        ensures bound { IfOk result (λ n. n ≤ length piece.now) }
        ensures told { WritesWhereTold (written self.old) (written self.new) piece.now result }
        ensures faults { Counts (faults self.old) (faults self.new) (IsSinkFault piece.now result) };
}
