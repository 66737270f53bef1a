// Walks for a visitor that reads the store, whose answers may skip nodes and end the walk.
ghost use Rattle.records.specs.declared.ir_node.IRNode.TheVariants.{BasicBlock, Operation, Region};
ghost use Rattle.walkers.specs.Walks.{WalkCall};

use crate::config::WalkConfig;
use crate::driving::walk;
use crate::visitor::Visitor;
use ir::Context;
use orders::WalkResult;
use records::{BlockPtr, IRNode, OpPtr, RegionPtr};
use result::Refusal;

// Walks an operation and all that lies below it.
pub fn walk_op<V: Visitor>(
    context: &Context,
    config: WalkConfig,
    root: OpPtr,
    visitor: &mut V,
) -> Result<WalkResult<V::Break>, Refusal>
where
    V::Break: Drop,
    ensures { WalkCall V.answer V.next context.now config (Operation root) visitor.old result visitor.new }
{
    walk(context, config, IRNode::Operation(root), visitor)
}

// Walks a region and all that lies below it.
pub fn walk_region<V: Visitor>(
    context: &Context,
    config: WalkConfig,
    root: RegionPtr,
    visitor: &mut V,
) -> Result<WalkResult<V::Break>, Refusal>
where
    V::Break: Drop,
    ensures { WalkCall V.answer V.next context.now config (Region root) visitor.old result visitor.new }
{
    walk(context, config, IRNode::Region(root), visitor)
}

// Walks a block and all that lies below it.
pub fn walk_block<V: Visitor>(
    context: &Context,
    config: WalkConfig,
    root: BlockPtr,
    visitor: &mut V,
) -> Result<WalkResult<V::Break>, Refusal>
where
    V::Break: Drop,
    ensures { WalkCall V.answer V.next context.now config (BasicBlock root) visitor.old result visitor.new }
{
    walk(context, config, IRNode::BasicBlock(root), visitor)
}
