// Walks that show a reading visitor every node, whatever it answers.
ghost use Rattle.records.specs.declared.ir_node.IRNode.TheVariants.{BasicBlock, Operation, Region};
ghost use Rattle.walkers.specs.Walks.{WalkAllCall, inside};

use crate::advancing::Uninterruptible;
use crate::config::WalkConfig;
use crate::driving::walk_all;
use crate::visitor::Visitor;
use ir::Context;
use records::{BlockPtr, IRNode, OpPtr, RegionPtr};
use result::Refusal;

// Walks an operation and all that lies below it.
pub fn walk_op<V: Visitor>(
    context: &Context,
    config: WalkConfig,
    root: OpPtr,
    visitor: &mut Uninterruptible<V>,
) -> Result<(), Refusal>
where
    V::Break: Drop,
    ensures { WalkAllCall V.Break (inside V.next) context.now config (Operation root) visitor.old result visitor.new }
{
    walk_all(context, config, IRNode::Operation(root), visitor)
}

// Walks a region and all that lies below it.
pub fn walk_region<V: Visitor>(
    context: &Context,
    config: WalkConfig,
    root: RegionPtr,
    visitor: &mut Uninterruptible<V>,
) -> Result<(), Refusal>
where
    V::Break: Drop,
    ensures { WalkAllCall V.Break (inside V.next) context.now config (Region root) visitor.old result visitor.new }
{
    walk_all(context, config, IRNode::Region(root), visitor)
}

// Walks a block and all that lies below it.
pub fn walk_block<V: Visitor>(
    context: &Context,
    config: WalkConfig,
    root: BlockPtr,
    visitor: &mut Uninterruptible<V>,
) -> Result<(), Refusal>
where
    V::Break: Drop,
    ensures { WalkAllCall V.Break (inside V.next) context.now config (BasicBlock root) visitor.old result visitor.new }
{
    walk_all(context, config, IRNode::BasicBlock(root), visitor)
}
