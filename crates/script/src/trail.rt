// The visitor of a script's walk: it lists the nodes that it is shown.
ghost use Rattle.std.specs.Prelude.{◌≡◌};
ghost use Rattle.script.specs.Answers.{answer_at};
ghost use Rattle.script.specs.Listed.{more_shown, shown_as};

use crate::node::{Node, Nodes};
use crate::state::State;
use crate::steering::Steering;
use ir::Context;
use records::IRNode;
use walkers::{Visitor, WalkResult};

// The list of the nodes shown so far, with their numbers in a session. No walk shows more than the list holds.
#[derive(Drop)]
pub(crate) struct Trail<'a> {
    pub(crate) state: &'a State,
    pub(crate) steering: Steering,
    pub(crate) nodes: &'a mut Nodes,
}

impl Visitor for Trail<'_> {
    type Break = ();

    ghost answer = { λ t c n. answer_at t.steering.skip t.steering.end n };

    ghost next = { λ t c n. record t { nodes = record t.nodes { now = record { items = more_shown t.nodes.now.items (shown_as t.state.now n) } } } };

    fn visit(&mut self, _context: &Context, node: IRNode) -> WalkResult<()> {
        if !self.nodes.is_full() {
            self.nodes.push(self.state.shown(node));
        }
        self.steering.answer(node)
    }
}

impl State {
    // A node as a line shows it: with the number given last at its place.
    fn shown(&self, node: IRNode) -> Node
        ensures { result ≡ shown_as self.now node }
    {
        match node {
            IRNode::Operation(op) => Node::Operation(self.operations.number_of(op)),
            IRNode::BasicBlock(block) => Node::Block(self.blocks.number_of(block)),
            IRNode::Region(region) => Node::Region(self.regions.number_of(region)),
        }
    }
}
