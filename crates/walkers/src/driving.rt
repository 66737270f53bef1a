// The loop of a walk for a visitor that reads: step by step, each node is shown to it, and the next step goes by its answer.
// Kept: this loop beside the one for a visitor that writes, since the store is lent in two ways.
ghost use Rattle.std.specs.Prelude.{◌≡◌};
ghost use Rattle.orders.specs.Places.{node_at};
ghost use Rattle.orders.specs.Runs.{closed};
ghost use Rattle.records.specs.Children.{is_live};
ghost use Rattle.ir.specs.Stores.{nodes};
ghost use Rattle.walkers.specs.Walks.{WalkAllCall, WalkCall, WalkRead, inside};

use crate::advancing::Uninterruptible;
use crate::config::WalkConfig;
use crate::steps::after;
use crate::visitor::Visitor;
use ir::Context;
use orders::{At, WalkResult};
use records::IRNode;
use result::Refusal;

// The node that a place shows.
pub(crate) fn node_at(at: At<IRNode>) -> Option<IRNode>
    ensures { result ≡ node_at at }
{
    match at {
        At::Entering(node) => Some(node),
        At::Leaving(node) => Some(node),
        At::Start => None,
        At::Ended => None,
    }
}

// What a walk says whose last answer this is.
pub(crate) fn closed<B>(answer: WalkResult<B>) -> WalkResult<B>
    ensures { result ≡ closed answer }
{
    match answer {
        WalkResult::Break(value) => WalkResult::Break(value),
        WalkResult::Advance => WalkResult::Advance,
        WalkResult::Skip => WalkResult::Advance,
    }
}

// Whether a node is live.
pub(crate) fn is_live(context: &Context, node: IRNode) -> bool
    ensures { result ≡ is_live (nodes context.now) node }
{
    match node {
        IRNode::Operation(op) => context.is_live(op),
        IRNode::BasicBlock(block) => context.is_live(block),
        IRNode::Region(region) => context.is_live(region),
    }
}

// Shows a reading visitor the nodes of a walk.
pub(crate) fn drive<V: Visitor>(
    context: &Context,
    config: WalkConfig,
    root: IRNode,
    visitor: &mut V,
) -> WalkResult<V::Break>
where
    V::Break: Drop,
    ensures { WalkRead V.answer V.next context.now config root visitor.old result visitor.new }
{
    let mut at = At::Start;
    let mut answer = WalkResult::Advance;
    'walk: loop {
        at = after(context, config, root, at, &answer);
        match node_at(at) {
            Some(node) => answer = visitor.visit(context, node),
            None => return closed(answer),
        }
    }
}

// A walk for a reading visitor.
pub(crate) fn walk<V: Visitor>(
    context: &Context,
    config: WalkConfig,
    root: IRNode,
    visitor: &mut V,
) -> Result<WalkResult<V::Break>, Refusal>
where
    V::Break: Drop,
    ensures { WalkCall V.answer V.next context.now config root visitor.old result visitor.new }
{
    if !is_live(context, root) {
        return Err(Refusal::Dangling);
    }
    Ok(drive(context, config, root, visitor))
}

// A walk that shows a reading visitor every node.
pub(crate) fn walk_all<V: Visitor>(
    context: &Context,
    config: WalkConfig,
    root: IRNode,
    visitor: &mut Uninterruptible<V>,
) -> Result<(), Refusal>
where
    V::Break: Drop,
    ensures { WalkAllCall V.Break (inside V.next) context.now config root visitor.old result visitor.new }
{
    let _ = walk(context, config, root, visitor)?;
    Ok(())
}
