// Walks that show a writing visitor every node, whatever it answers.
ghost use Rattle.records.specs.declared.ir_node.IRNode.TheVariants.{BasicBlock, Operation, Region};
ghost use Rattle.walkers.specs.Walks.{WalkAllMutCall, beneath, inside};

use crate::advancing::Uninterruptible;
use crate::config::WalkConfig;
use crate::driving_mut::walk_all_mut;
use crate::visitor::VisitorMut;
use ir::Context;
use records::{BlockPtr, IRNode, OpPtr, RegionPtr};
use result::Refusal;

// Walks an operation and all that lies below it.
pub fn walk_op<V: VisitorMut>(
    context: &mut Context,
    config: WalkConfig,
    root: OpPtr,
    visitor: &mut Uninterruptible<V>,
) -> Result<(), Refusal>
where
    V::Break: Drop,
    ensures { WalkAllMutCall V.Break (inside V.next) (beneath V.notes) context.old config (Operation root) visitor.old result visitor.new context.new }
{
    walk_all_mut(context, config, IRNode::Operation(root), visitor)
}

// Walks a region and all that lies below it.
pub fn walk_region<V: VisitorMut>(
    context: &mut Context,
    config: WalkConfig,
    root: RegionPtr,
    visitor: &mut Uninterruptible<V>,
) -> Result<(), Refusal>
where
    V::Break: Drop,
    ensures { WalkAllMutCall V.Break (inside V.next) (beneath V.notes) context.old config (Region root) visitor.old result visitor.new context.new }
{
    walk_all_mut(context, config, IRNode::Region(root), visitor)
}

// Walks a block and all that lies below it.
pub fn walk_block<V: VisitorMut>(
    context: &mut Context,
    config: WalkConfig,
    root: BlockPtr,
    visitor: &mut Uninterruptible<V>,
) -> Result<(), Refusal>
where
    V::Break: Drop,
    ensures { WalkAllMutCall V.Break (inside V.next) (beneath V.notes) context.old config (BasicBlock root) visitor.old result visitor.new context.new }
{
    walk_all_mut(context, config, IRNode::BasicBlock(root), visitor)
}
