// In which order a walk shows nodes: for each kind of parent, when it is shown itself and in which direction its children are.

// Whether a node is shown before its children or after them.
#[derive(Clone, Copy, PartialEq, Eq, Debug)]
pub enum Order {
    // The node, then its children.
    PreOrder,
    // Its children, then the node.
    PostOrder,
}

// In which direction the children of a node are shown.
#[derive(Clone, Copy, PartialEq, Eq, Debug)]
pub enum Direction {
    // From the first to the last.
    Forward,
    // From the last to the first.
    Reverse,
}

// The order and the direction for each kind of parent.
#[derive(Clone, Copy, PartialEq, Eq, Debug)]
pub struct WalkConfig {
    // Of an operation, and among its regions.
    pub regions_in_op: (Order, Direction),
    // Of a block, and among its operations.
    pub ops_in_block: (Order, Direction),
    // Of a region, and among its blocks.
    pub blocks_in_region: (Order, Direction),
}

// Each node before its children, these from the first to the last.
pub const WALKCONFIG_PREORDER_FORWARD: WalkConfig = WalkConfig {
    regions_in_op: (Order::PreOrder, Direction::Forward),
    ops_in_block: (Order::PreOrder, Direction::Forward),
    blocks_in_region: (Order::PreOrder, Direction::Forward),
};

// Each node after its children, these from the first to the last.
pub const WALKCONFIG_POSTORDER_FORWARD: WalkConfig = WalkConfig {
    regions_in_op: (Order::PostOrder, Direction::Forward),
    ops_in_block: (Order::PostOrder, Direction::Forward),
    blocks_in_region: (Order::PostOrder, Direction::Forward),
};

// Each node before its children, these from the last to the first.
pub const WALKCONFIG_PREORDER_REVERSE: WalkConfig = WalkConfig {
    regions_in_op: (Order::PreOrder, Direction::Reverse),
    ops_in_block: (Order::PreOrder, Direction::Reverse),
    blocks_in_region: (Order::PreOrder, Direction::Reverse),
};

// Each node after its children, these from the last to the first.
pub const WALKCONFIG_POSTORDER_REVERSE: WalkConfig = WalkConfig {
    regions_in_op: (Order::PostOrder, Direction::Reverse),
    ops_in_block: (Order::PostOrder, Direction::Reverse),
    blocks_in_region: (Order::PostOrder, Direction::Reverse),
};
