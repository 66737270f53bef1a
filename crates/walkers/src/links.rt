// The neighbours of a node, read from its record and its parent's: no list is gone through, and nothing is put aside.
ghost use Rattle.std.specs.Prelude.{◌≡◌};
ghost use Rattle.ir.specs.Stores.{nodes};
ghost use Rattle.walkers.specs.Links.{first_child, last_child, last_region, next_sibling, nth_region, prev_sibling, region_links};

use ir::Context;
use records::{IRNode, OpPtr, RegionPtr};

// The region of an operation at an index.
fn nth_region(context: &Context, op: OpPtr, index: usize) -> Option<RegionPtr>
    ensures { result ≡ nth_region (nodes context.now) index op }
{
    context.get(op)?.regions.get(index)
}

// The last region of an operation.
fn last_region(context: &Context, op: OpPtr) -> Option<RegionPtr>
    ensures { result ≡ last_region (nodes context.now) op }
{
    let regions = context.get(op)?.regions;
    regions.get(regions.len().saturating_sub(1))
}

// The region after a region.
fn next_region(context: &Context, region: RegionPtr) -> Option<RegionPtr>
    ensures { result ≡ (region_links (nodes context.now)).next region }
{
    let region = context.get(region)?;
    let regions = context.get(region.parent_op)?.regions;
    if region.index >= regions.len() {
        return None;
    }
    regions.get(region.index + 1)
}

// The region before a region.
fn prev_region(context: &Context, region: RegionPtr) -> Option<RegionPtr>
    ensures { result ≡ (region_links (nodes context.now)).prev region }
{
    let region = context.get(region)?;
    if region.index == 0 {
        return None;
    }
    nth_region(context, region.parent_op, region.index - 1)
}

// The first child of a node.
pub(crate) fn first_child(context: &Context, node: IRNode) -> Option<IRNode>
    ensures { result ≡ first_child (nodes context.now) node }
{
    match node {
        IRNode::Operation(op) => nth_region(context, op, 0).map(IRNode::Region),
        IRNode::BasicBlock(block) => context.get(block)?.head.map(IRNode::Operation),
        IRNode::Region(region) => context.get(region)?.head.map(IRNode::BasicBlock),
    }
}

// The last child of a node.
pub(crate) fn last_child(context: &Context, node: IRNode) -> Option<IRNode>
    ensures { result ≡ last_child (nodes context.now) node }
{
    match node {
        IRNode::Operation(op) => last_region(context, op).map(IRNode::Region),
        IRNode::BasicBlock(block) => context.get(block)?.tail.map(IRNode::Operation),
        IRNode::Region(region) => context.get(region)?.tail.map(IRNode::BasicBlock),
    }
}

// The sibling after a node.
pub(crate) fn next_sibling(context: &Context, node: IRNode) -> Option<IRNode>
    ensures { result ≡ next_sibling (nodes context.now) node }
{
    match node {
        IRNode::Operation(op) => context.get(op)?.next.map(IRNode::Operation),
        IRNode::BasicBlock(block) => context.get(block)?.next.map(IRNode::BasicBlock),
        IRNode::Region(region) => next_region(context, region).map(IRNode::Region),
    }
}

// The sibling before a node.
pub(crate) fn prev_sibling(context: &Context, node: IRNode) -> Option<IRNode>
    ensures { result ≡ prev_sibling (nodes context.now) node }
{
    match node {
        IRNode::Operation(op) => context.get(op)?.prev.map(IRNode::Operation),
        IRNode::BasicBlock(block) => context.get(block)?.prev.map(IRNode::BasicBlock),
        IRNode::Region(region) => prev_region(context, region).map(IRNode::Region),
    }
}
