// Who is shown the nodes of a walk. A visitor means a state: its answer, its next state and the notes that it leaves are fixed by
// its state, the store and the node.
ghost use Rattle.std.specs.Prelude.{◌≡◌, ℕ};
ghost use Rattle.orders.specs.declared.walk_result.WalkResult.{WalkResult};
ghost use Rattle.records.specs.declared.handles.OpPtr.{OpPtr};
ghost use Rattle.records.specs.declared.ir_node.IRNode.{IRNode};
ghost use Rattle.ir.specs.declared.context.Context.{Context};
ghost use Rattle.walkers.specs.Notes.{Noting};

use ir::Context;
use orders::WalkResult;
use records::IRNode;

// A visitor that reads the store.
pub trait Visitor {
    // What it says when it ends a walk.
    type Break;

    // its answer to a node
    ghost answer: { Self → Context → IRNode → WalkResult Self.Break };

    // its state after a node
    ghost next: { Self → Context → IRNode → Self };

    fn visit(&mut self, context: &Context, node: IRNode) -> WalkResult<Self::Break>
        ensures answers { result ≡ answer self.old context.now node }
        ensures moves { self.new ≡ next self.old context.now node };
}

// A visitor that sets notes, and changes nothing else in the store.
pub trait VisitorMut {
    // What it says when it ends a walk.
    type Break;

    // its answer to a node
    ghost answer: { Self → Context → IRNode → WalkResult Self.Break };

    // its state after a node
    ghost next: { Self → Context → IRNode → Self };

    // the note of each operation after a node
    ghost notes: { Self → Context → IRNode → OpPtr → ℕ };

    fn visit(&mut self, context: &mut Context, node: IRNode) -> WalkResult<Self::Break>
        ensures answers { result ≡ answer self.old context.old node }
        ensures moves { self.new ≡ next self.old context.old node }
        ensures notes { Noting context.old (notes self.old context.old node) context.new };
}
