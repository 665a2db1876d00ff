use crate::{List, Text};

/// A part of a net list.
#[derive(Debug, Drop)]
pub struct Comp {
    /// The part's name on the board, such as `U1`.
    pub designator: Text,
    /// The picked part, or the name of the type.
    pub value: Text,
    /// The name of the footprint, which may be empty.
    pub footprint: Text,
    /// The names from the root to the part, joined by points.
    pub path: Text,
}

/// A pin of a net.
#[derive(Debug, Drop)]
pub struct NetPin {
    /// The number of its part in the net list, from 0.
    pub comp: u32,
    /// Its label in the part.
    pub label: Text,
}

/// Pins that are joined.
#[derive(Debug, Drop)]
pub struct Net {
    /// The path of one of its points.
    pub name: Text,
    /// Its pins, of which there is at least one.
    pub pins: List<NetPin>,
}

/// The parts of a board and the nets of their pins.
#[derive(Debug, Drop)]
pub struct NetList {
    /// The parts, by which pins are named.
    pub comps: List<Comp>,
    /// The nets, in the order of their codes.
    pub nets: List<Net>,
}

/// A row of the parts list. A text that there is none of is empty.
#[derive(Debug, Drop)]
pub struct PartRow {
    /// The part's name on the board.
    pub designator: Text,
    /// The names from the root to the part, joined by points.
    pub path: Text,
    /// The name of its type.
    pub kind_name: Text,
    /// The kind that the catalogue is asked for.
    pub kind: Text,
    /// The name of the picked part.
    pub part: Text,
    /// Its package.
    pub package: Text,
    /// Its footprint.
    pub footprint: Text,
    /// Its price, in digits.
    pub price: Text,
}
