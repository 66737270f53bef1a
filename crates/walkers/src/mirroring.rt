// What a configuration says of one node, and the mirrored configuration.
ghost use Rattle.std.specs.Prelude.{◌≡◌};
ghost use Rattle.walkers.specs.Configs.{as_child, as_parent, mirror, other_direction, other_order, other_pair, preorder_forward};

use crate::config::{Direction, Order, WALKCONFIG_PREORDER_FORWARD, WalkConfig};
use records::IRNode;

impl Order {
    // The other order.
    pub fn mirrored(self) -> Order
        ensures { result ≡ other_order self }
    {
        match self {
            Order::PreOrder => Order::PostOrder,
            Order::PostOrder => Order::PreOrder,
        }
    }
}

impl Direction {
    // The other direction.
    pub fn mirrored(self) -> Direction
        ensures { result ≡ other_direction self }
    {
        match self {
            Direction::Forward => Direction::Reverse,
            Direction::Reverse => Direction::Forward,
        }
    }
}

impl WalkConfig {
    // When a node is shown, before its children or after them.
    pub fn order(self, node: IRNode) -> Order
        ensures { result ≡ (as_parent self node).0 }
    {
        match node {
            IRNode::Operation(_) => self.regions_in_op.0,
            IRNode::BasicBlock(_) => self.ops_in_block.0,
            IRNode::Region(_) => self.blocks_in_region.0,
        }
    }

    // In which direction the children of a node are shown.
    pub fn direction_in(self, node: IRNode) -> Direction
        ensures { result ≡ (as_parent self node).1 }
    {
        match node {
            IRNode::Operation(_) => self.regions_in_op.1,
            IRNode::BasicBlock(_) => self.ops_in_block.1,
            IRNode::Region(_) => self.blocks_in_region.1,
        }
    }

    // In which direction a node is shown among the children of its parent.
    pub fn direction_among(self, node: IRNode) -> Direction
        ensures { result ≡ (as_child self node).1 }
    {
        match node {
            IRNode::Operation(_) => self.ops_in_block.1,
            IRNode::BasicBlock(_) => self.blocks_in_region.1,
            IRNode::Region(_) => self.regions_in_op.1,
        }
    }

    // The configuration with all orders and directions turned about.
    pub fn mirrored(self) -> WalkConfig
        ensures { result ≡ mirror self }
    {
        WalkConfig {
            regions_in_op: mirrored_pair(self.regions_in_op),
            ops_in_block: mirrored_pair(self.ops_in_block),
            blocks_in_region: mirrored_pair(self.blocks_in_region),
        }
    }
}

// The other order and the other direction.
fn mirrored_pair(pair: (Order, Direction)) -> (Order, Direction)
    ensures { result ≡ other_pair pair }
{
    (pair.0.mirrored(), pair.1.mirrored())
}

// Each node before its children, these from the first to the last.
impl Default for WalkConfig {
    ghost is_default = { λ k. k ≡ preorder_forward };

    fn default() -> WalkConfig {
        WALKCONFIG_PREORDER_FORWARD
    }
}
