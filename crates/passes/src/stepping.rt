// Going through a held walk: how one is used outside.
ghost use Rattle.std.specs.Prelude.{◌≡◌};
ghost use Rattle.orders.specs.Runs.{closed};
ghost use Rattle.walkers.specs.Walks.{WalkCall};

use ir::{Context, IRNode};
use result::Refusal;
use walkers::{Visitor, Walk, WalkConfig, WalkResult};

// What a walk says whose last answer this is.
fn closed<B>(answer: WalkResult<B>) -> WalkResult<B>
    ensures { result ≡ closed answer }
{
    match answer {
        WalkResult::Break(value) => WalkResult::Break(value),
        WalkResult::Advance => WalkResult::Advance,
        WalkResult::Skip => WalkResult::Advance,
    }
}

// Shows a visitor the nodes of a walk, step by step; it promises what the walks of the crate below promise.
pub fn walk_by_steps<V: Visitor>(
    context: &Context,
    config: WalkConfig,
    root: IRNode,
    visitor: &mut V,
) -> Result<WalkResult<V::Break>, Refusal>
where
    V::Break: Drop,
    ensures { WalkCall V.answer V.next context.now config root visitor.old result visitor.new }
{
    let mut walk = Walk::new(context, config, root)?;
    let mut answer = WalkResult::Advance;
    'steps: loop {
        match walk.step(&answer) {
            Some(node) => answer = visitor.visit(context, node),
            None => return Ok(closed(answer)),
        }
    }
}
