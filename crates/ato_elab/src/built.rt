use crate::places::Places;
use ato_base::List;
use ato_instance_tree::{Node, Occurrence};

/// A tree whose assignments are not looked at yet.
#[derive(Drop)]
pub(crate) struct Built {
    /// The nodes, in tree order.
    pub(crate) nodes: List<Node>,
    /// The occurrences, in written order.
    pub(crate) occurrences: List<Occurrence>,
    /// The nodes by the names of their instances' members.
    pub(crate) places: Places,
}
