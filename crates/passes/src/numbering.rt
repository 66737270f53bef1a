// A visitor that numbers operations: how one that writes notes is made outside.
ghost use Rattle.passes.specs.Numberings.{numbered, numbering_answer, numbering_notes};

use ir::{Context, IRNode};
use walkers::{VisitorMut, WalkResult};

// Notes at each operation that it is shown how many were shown before; where no number is left, it ends the walk.
#[derive(Drop)]
pub struct Numberer {
    pub count: u32,
}

impl VisitorMut for Numberer {
    type Break = ();

    ghost answer = { λ v s n. numbering_answer v.count n };

    ghost next = { λ v s n. record { count = numbered v.count n } };

    ghost notes = { λ v s n. numbering_notes v.count s n };

    fn visit(&mut self, context: &mut Context, node: IRNode) -> WalkResult<()> {
        let IRNode::Operation(op) = node else {
            return WalkResult::Advance;
        };
        let _ = context.set_note(op, self.count);
        let Some(count) = self.count.checked_add(1) else {
            return WalkResult::Break(());
        };
        self.count = count;
        WalkResult::Advance
    }
}
