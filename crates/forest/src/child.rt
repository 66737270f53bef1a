// Nodes that stand in lists, operations in blocks and blocks in regions: what the calls that are the same for both ask of them.
ghost use Rattle.std.specs.Prelude.{◌≡◌};
ghost use Rattle.records.specs.declared.ir_node.IRNode.{IRNode};
ghost use Rattle.records.specs.declared.ir_node.IRNode.TheVariants.{BasicBlock, Operation, Region};

use linked_list::LinkedList;
use records::{BlockPtr, IRNode, OpPtr, Records, RegionPtr};

// A node that stands in a list of the records.
// Kept: liveness is asked by functions of this trait, since a bound on `Ptr` would want a law that its table is the one that the
// links are read from, and is no plainer; nodes of any kind are made by functions and not by `From`, since the container's is one too.
pub(crate) trait Child: LinkedList<Store = Records> {
    // The node, and its container, as a node of any kind.
    ghost inner: { Self → IRNode };

    ghost outer: { Self.ContainerType → IRNode };

    // Whether the node is live.
    fn is_live(records: &Records, n: Self) -> bool
        ensures { result ≡ (Self.view records.now).live n };

    // Whether the container is live.
    fn is_held(records: &Records, c: Self::ContainerType) -> bool
        ensures { result ≡ (Self.view records.now).held c };

    fn node(n: Self) -> IRNode
        ensures { result ≡ inner n };

    fn container_node(c: Self::ContainerType) -> IRNode
        ensures { result ≡ outer c };
}

impl Child for OpPtr {
    ghost inner = { Operation };

    ghost outer = { BasicBlock };

    fn is_live(records: &Records, n: OpPtr) -> bool {
        records.is_live(n)
    }

    fn is_held(records: &Records, c: BlockPtr) -> bool {
        records.is_live(c)
    }

    fn node(n: OpPtr) -> IRNode {
        IRNode::Operation(n)
    }

    fn container_node(c: BlockPtr) -> IRNode {
        IRNode::BasicBlock(c)
    }
}

impl Child for BlockPtr {
    ghost inner = { BasicBlock };

    ghost outer = { Region };

    fn is_live(records: &Records, n: BlockPtr) -> bool {
        records.is_live(n)
    }

    fn is_held(records: &Records, c: RegionPtr) -> bool {
        records.is_live(c)
    }

    fn node(n: BlockPtr) -> IRNode {
        IRNode::BasicBlock(n)
    }

    fn container_node(c: RegionPtr) -> IRNode {
        IRNode::Region(c)
    }
}
