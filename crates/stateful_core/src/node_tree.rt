use mark_trees::LeastTree;

/// When the cells of a node are ready, and where they hold it back: for each cell by its number when it is
/// due, and the least of its holds. Those of other nodes are never due, and hold nothing.
#[derive(Debug, Drop)]
pub struct NodeTree {
    pub node: u32,
    pub marks: LeastTree,
}
