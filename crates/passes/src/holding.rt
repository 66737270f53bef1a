// A pass that holds a walk, and edits the store once the walk is over.
ghost use Rattle.std.specs.Prelude.{◌≡◌};
ghost use Rattle.passes.specs.Firsts.{FirstTaken, operation_in};

use ir::{BlockPtr, Context, IRNode, OpPtr};
use result::Refusal;
use walkers::{WALKCONFIG_PREORDER_FORWARD, Walk, WalkResult};

// The operation that a node is.
fn operation_in(node: Option<IRNode>) -> Option<OpPtr>
    ensures { result ≡ operation_in node }
{
    match node {
        Some(IRNode::Operation(op)) => Some(op),
        Some(IRNode::BasicBlock(_)) => None,
        Some(IRNode::Region(_)) => None,
        None => None,
    }
}

// Unlinks the first operation of a block, if it has one: the second node that a walk from the block gives. The walk ends before
// the store is edited.
pub fn unlink_first_by_walk(
    context: &mut Context,
    block: BlockPtr,
) -> Result<Option<OpPtr>, Refusal>
    ensures { FirstTaken context.old block result context.new }
{
    let root = IRNode::BasicBlock(block);
    let mut walk = Walk::new(context, WALKCONFIG_PREORDER_FORWARD, root)?;
    let advance: WalkResult<()> = WalkResult::Advance;
    let _ = walk.step(&advance);
    let Some(op) = operation_in(walk.step(&advance)) else {
        return Ok(None);
    };
    context.unlink_op(op)?;
    Ok(Some(op))
}
