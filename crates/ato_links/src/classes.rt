use ato_base::List;

/// The classes of joined nodes of a tree.
#[derive(Debug, Drop)]
pub struct Classes {
    /// For each node, by its number, the least number of a node that is joined with it.
    pub of: List<u32>,
}
