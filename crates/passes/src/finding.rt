// Finding the first terminator of a subtree: how a visitor that reads is made outside, and ends a walk with a value.
ghost use Rattle.std.specs.Prelude.{◌≡◌};
ghost use Rattle.passes.specs.Terminators.{FirstTerminatorCall, is_terminator, seeking_answer};

use ir::{Context, IRNode, OpPtr};
use result::Refusal;
use walkers::interruptible::immutable::walk_op;
use walkers::{Visitor, WALKCONFIG_PREORDER_FORWARD, WalkResult};

// Ends the walk at the first terminator that it is shown, and says which it is.
#[derive(Drop)]
pub struct TerminatorFinder {}

// Whether an operation is a terminator; a dead one is none.
fn is_terminator(context: &Context, op: OpPtr) -> bool
    ensures { result ≡ is_terminator context.now op }
{
    match context.get(op) {
        Some(operation) => operation.kind.terminator,
        None => false,
    }
}

impl Visitor for TerminatorFinder {
    type Break = OpPtr;

    ghost answer = { λ v s n. seeking_answer s n };

    ghost next = { λ v s n. v };

    fn visit(&mut self, context: &Context, node: IRNode) -> WalkResult<OpPtr> {
        match node {
            IRNode::Operation(op) if is_terminator(context, op) => WalkResult::Break(op),
            _ => WalkResult::Advance,
        }
    }
}

// The terminator that a walk of an operation and all that lies below it meets first, if there is one.
pub fn first_terminator(context: &Context, root: OpPtr) -> Result<Option<OpPtr>, Refusal>
    ensures { FirstTerminatorCall context.now root result }
{
    let mut finder = TerminatorFinder {};
    match walk_op(context, WALKCONFIG_PREORDER_FORWARD, root, &mut finder)? {
        WalkResult::Break(op) => Ok(Some(op)),
        WalkResult::Advance => Ok(None),
        WalkResult::Skip => Ok(None),
    }
}
