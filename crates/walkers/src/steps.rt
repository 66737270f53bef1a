// One step of a walk, from the place where it stands to the next: the next node is found through the links, with no stack.
ghost use Rattle.std.specs.Prelude.{◌≡◌, ◌++◌, Bool};
ghost use Rattle.trees.specs.Climbs.{Within};
ghost use Rattle.orders.specs.Places.{Begun, Fit, Showing, goes, order, remaining, rest, shows};
ghost use Rattle.records.specs.declared.ir_node.IRNode.{IRNode};
ghost use Rattle.ir.specs.Stores.{nodes};
ghost use Rattle.walkers.specs.Links.{links};
ghost use Rattle.walkers.specs.Configs.{early};

use crate::config::{Direction, Order, WalkConfig};
use crate::links::{first_child, last_child, next_sibling, prev_sibling};
use ir::Context;
use orders::{At, WalkResult};
use records::IRNode;

// The child of a node with which the walk begins below it.
#[tactic(auto, unfolding(crate::specs::Links::links, crate::specs::Links::raw, crate::specs::Links::reading, orders::specs::Trees::read))]
fn first(context: &Context, config: WalkConfig, node: IRNode) -> Option<IRNode>
    ensures { result ≡ (links (nodes context.now) config).first node }
{
    match config.direction_in(node) {
        Direction::Forward => first_child(context, node),
        Direction::Reverse => last_child(context, node),
    }
}

// The sibling with which the walk goes on after a node and all below it.
#[tactic(auto, unfolding(crate::specs::Links::links, crate::specs::Links::raw, crate::specs::Links::reading, orders::specs::Trees::read))]
fn next(context: &Context, config: WalkConfig, node: IRNode) -> Option<IRNode>
    ensures { result ≡ (links (nodes context.now) config).next node }
{
    match config.direction_among(node) {
        Direction::Forward => next_sibling(context, node),
        Direction::Reverse => prev_sibling(context, node),
    }
}

// Whether a node is shown before its children.
fn is_early(config: WalkConfig, node: IRNode) -> bool
    ensures { result ≡ early config node }
{
    config.order(node) == Order::PreOrder
}

// The first node to show of a node and all below it.
fn down(context: &Context, config: WalkConfig, from: IRNode) -> At<IRNode>
    ensures left { (root : IRNode) → Within (links (nodes context.now) config).up root from → (S : IRNode → Bool)
        → order (links (nodes context.now) config) S from ++ rest (links (nodes context.now) config) root S from ≡ shows result ++ remaining (links (nodes context.now) config) root S result }
    ensures fits { (root : IRNode) → Within (links (nodes context.now) config).up root from → Fit (links (nodes context.now) config) root result }
    ensures showing { Showing result }
{
    let mut node = from;
    'down: loop {
        if is_early(config, node) {
            return At::Entering(node);
        }
        match first(context, config, node) {
            Some(child) => node = child,
            None => return At::Leaving(node),
        }
    }
}

// The first node to show after a node and all below it.
fn climb(context: &Context, config: WalkConfig, root: IRNode, from: IRNode) -> At<IRNode>
    ensures left { Within (links (nodes context.now) config).up root from → (S : IRNode → Bool)
        → rest (links (nodes context.now) config) root S from ≡ shows result ++ remaining (links (nodes context.now) config) root S result }
    ensures fits { Within (links (nodes context.now) config).up root from → Fit (links (nodes context.now) config) root result }
    ensures begun { Begun result }
{
    let mut node = from;
    'climb: while node != root {
        match next(context, config, node) {
            Some(sibling) => return down(context, config, sibling),
            None => match context.parent(node) {
                Some(above) => {
                    if !is_early(config, above) {
                        return At::Leaving(above);
                    }
                    node = above;
                }
                None => return At::Ended,
            },
        }
    }
    At::Ended
}

// The place after the node at which the walk stands was answered.
pub(crate) fn after<B>(
    context: &Context,
    config: WalkConfig,
    root: IRNode,
    at: At<IRNode>,
    answer: &WalkResult<B>,
) -> At<IRNode>
    ensures left { Fit (links (nodes context.now) config) root at → (S : IRNode → Bool)
        → goes (links (nodes context.now) config) root S at answer.now ≡ shows result ++ remaining (links (nodes context.now) config) root S result }
    ensures fits { Fit (links (nodes context.now) config) root at → Fit (links (nodes context.now) config) root result }
    ensures begun { Begun result }
{
    match (at, answer) {
        (At::Start, _) => down(context, config, root),
        (At::Entering(node), WalkResult::Advance) => match first(context, config, node) {
            Some(child) => down(context, config, child),
            None => climb(context, config, root, node),
        },
        (At::Entering(node), WalkResult::Skip) => climb(context, config, root, node),
        (At::Leaving(node), WalkResult::Advance) => climb(context, config, root, node),
        (At::Leaving(node), WalkResult::Skip) => climb(context, config, root, node),
        (_, _) => At::Ended,
    }
}
