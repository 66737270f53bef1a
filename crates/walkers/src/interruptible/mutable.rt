// Walks for a visitor that sets notes, whose answers may skip nodes and end the walk.
ghost use Rattle.records.specs.declared.ir_node.IRNode.TheVariants.{BasicBlock, Operation, Region};
ghost use Rattle.walkers.specs.Walks.{WalkMutCall};

use crate::config::WalkConfig;
use crate::driving_mut::walk_mut;
use crate::visitor::VisitorMut;
use ir::Context;
use orders::WalkResult;
use records::{BlockPtr, IRNode, OpPtr, RegionPtr};
use result::Refusal;

// Walks an operation and all that lies below it.
pub fn walk_op<V: VisitorMut>(
    context: &mut Context,
    config: WalkConfig,
    root: OpPtr,
    visitor: &mut V,
) -> Result<WalkResult<V::Break>, Refusal>
where
    V::Break: Drop,
    ensures { WalkMutCall V.answer V.next V.notes context.old config (Operation root) visitor.old result visitor.new context.new }
{
    walk_mut(context, config, IRNode::Operation(root), visitor)
}

// Walks a region and all that lies below it.
pub fn walk_region<V: VisitorMut>(
    context: &mut Context,
    config: WalkConfig,
    root: RegionPtr,
    visitor: &mut V,
) -> Result<WalkResult<V::Break>, Refusal>
where
    V::Break: Drop,
    ensures { WalkMutCall V.answer V.next V.notes context.old config (Region root) visitor.old result visitor.new context.new }
{
    walk_mut(context, config, IRNode::Region(root), visitor)
}

// Walks a block and all that lies below it.
pub fn walk_block<V: VisitorMut>(
    context: &mut Context,
    config: WalkConfig,
    root: BlockPtr,
    visitor: &mut V,
) -> Result<WalkResult<V::Break>, Refusal>
where
    V::Break: Drop,
    ensures { WalkMutCall V.answer V.next V.notes context.old config (BasicBlock root) visitor.old result visitor.new context.new }
{
    walk_mut(context, config, IRNode::BasicBlock(root), visitor)
}
