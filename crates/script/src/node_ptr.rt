// What the handles of each kind of node have in common: how a line shows their nodes, and their places.
ghost use Rattle.std.specs.Prelude.{◌≡◌, ℕ};
ghost use Rattle.script.specs.declared.node.Node.{Node};
ghost use Rattle.script.specs.declared.node.Node.TheVariants.{Operation, Block, Region};

use crate::node::Node;
use ir::{BlockPtr, OpPtr, RegionPtr};

// A handle of one kind of node.
pub(crate) trait NodePtr: Copy {
    ghost node: { ℕ → Node };

    ghost place_of: { Self → ℕ };

    // The node of this kind that has a number, as a line shows it.
    fn node(number: u16) -> Node
        ensures { result ≡ node number };

    // The place of a handle.
    fn place(self) -> usize
        ensures { result ≡ place_of self };
}

impl NodePtr for OpPtr {
    ghost node = { Operation };

    ghost place_of = { λ p. p.handle.place };

    fn node(number: u16) -> Node {
        Node::Operation(number)
    }

    fn place(self) -> usize {
        self.handle.place
    }
}

impl NodePtr for BlockPtr {
    ghost node = { Block };

    ghost place_of = { λ p. p.handle.place };

    fn node(number: u16) -> Node {
        Node::Block(number)
    }

    fn place(self) -> usize {
        self.handle.place
    }
}

impl NodePtr for RegionPtr {
    ghost node = { Region };

    ghost place_of = { λ p. p.handle.place };

    fn node(number: u16) -> Node {
        Node::Region(number)
    }

    fn place(self) -> usize {
        self.handle.place
    }
}
