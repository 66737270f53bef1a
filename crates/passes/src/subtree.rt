// Numbering the operations of a subtree: how a visitor that writes notes is sent through a store.
ghost use Rattle.passes.specs.Subtrees.{NumberCall};

use crate::numbering::Numberer;
use ir::{Context, OpPtr};
use result::Refusal;
use walkers::interruptible::mutable::walk_op;
use walkers::{WALKCONFIG_PREORDER_FORWARD, WalkResult};

// Notes at an operation and at each operation below it how many were shown before.
pub fn number_operations(context: &mut Context, root: OpPtr) -> Result<WalkResult<()>, Refusal>
    ensures { NumberCall context.old root result context.new }
{
    let mut numberer = Numberer { count: 0 };
    walk_op(context, WALKCONFIG_PREORDER_FORWARD, root, &mut numberer)
}
