// A node as a line shows it, and what may stand after the nodes.
ghost use Rattle.std.specs.Prelude.{◌≡◌};
ghost use Rattle.script.specs.declared.node.Node.TheVariants.{Operation};

use arrayvec::ArrayVec;

// A node's kind and its number: nodes are numbered per kind from 0.
#[derive(Clone, Copy, Drop)]
pub enum Node {
    Operation(u16),
    Block(u16),
    Region(u16),
}

// What lies in the unused places of a list of nodes.
impl Default for Node {
    ghost is_default = { λ node. node ≡ Operation 0 };

    fn default() -> Node {
        Node::Operation(0)
    }
}

// The nodes that a line shows, in order: at most 1,024.
// Kept: the session has the list, and lends it beside its state to what fills it: made anew for each line, or given back by value, its
// 4,096 bytes took several times the instructions of the rest of a line.
pub(crate) type Nodes = ArrayVec<Node, 1024>;

// What stands after the nodes of a line.
#[derive(Clone, Copy, Drop)]
pub enum Close {
    // Nothing.
    Nothing,
    // A lookup found no operation.
    Absent,
    // A walk came to its end.
    End,
    // A walk was broken off.
    Break,
}
