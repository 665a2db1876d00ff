//! Judgements of relations over ranges of their variables.
//!
//! A table of expressions, a relation over its nodes and a range for each variable come in; a judgement goes
//! out: the relation holds at every point of the ranges, or fails at every one, or neither is found, or a number on
//! the way is out of range. Each node below the relation's sides gets an interval from those of its children
//! (`GivesInterval` of specs/Intervals.antt), in the table's order; the first one without an interval decides, and else
//! the intervals of the sides do. `Judges` of specs/Judgements.antt is the contract, and what it says of all rational points
//! is `IsRight` there.
#![tactic(auto)]

mod enclosing;
mod judgement;
mod judging;
mod kept;
mod laws;
mod leaning;
mod operations;
mod pass;
mod reached;
mod reaching;
mod reason;
mod sides;
mod wanted;

pub use enclosing::enclose;
pub use judgement::Judgement;
pub use laws::{corners_decide, points_are_decided};
pub use reached::Reached;
pub use reaching::reach;
