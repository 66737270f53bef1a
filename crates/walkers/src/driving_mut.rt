// The loop of a walk for a visitor that writes, which sets notes in the store that it goes through.
ghost use Rattle.walkers.specs.Walks.{WalkAllMutCall, WalkMutCall, WalkWritten, beneath, inside};

use crate::advancing::Uninterruptible;
use crate::config::WalkConfig;
use crate::driving::{closed, is_live, node_at};
use crate::steps::after;
use crate::visitor::VisitorMut;
use ir::Context;
use orders::{At, WalkResult};
use records::IRNode;
use result::Refusal;

// Shows a writing visitor the nodes of a walk.
fn drive_mut<V: VisitorMut>(
    context: &mut Context,
    config: WalkConfig,
    root: IRNode,
    visitor: &mut V,
) -> WalkResult<V::Break>
where
    V::Break: Drop,
    ensures { WalkWritten V.answer V.next V.notes context.old config root visitor.old result visitor.new context.new }
{
    let mut at = At::Start;
    let mut answer = WalkResult::Advance;
    'walk: loop {
        at = after(context, config, root, at, &answer);
        match node_at(at) {
            Some(node) => answer = visitor.visit(context, node),
            None => return closed(answer),
        }
    }
}

// A walk for a writing visitor.
pub(crate) fn walk_mut<V: VisitorMut>(
    context: &mut Context,
    config: WalkConfig,
    root: IRNode,
    visitor: &mut V,
) -> Result<WalkResult<V::Break>, Refusal>
where
    V::Break: Drop,
    ensures { WalkMutCall V.answer V.next V.notes context.old config root visitor.old result visitor.new context.new }
{
    if !is_live(context, root) {
        return Err(Refusal::Dangling);
    }
    Ok(drive_mut(context, config, root, visitor))
}

// A walk that shows a writing visitor every node.
pub(crate) fn walk_all_mut<V: VisitorMut>(
    context: &mut Context,
    config: WalkConfig,
    root: IRNode,
    visitor: &mut Uninterruptible<V>,
) -> Result<(), Refusal>
where
    V::Break: Drop,
    ensures { WalkAllMutCall V.Break (inside V.next) (beneath V.notes) context.old config root visitor.old result visitor.new context.new }
{
    let _ = walk_mut(context, config, root, visitor)?;
    Ok(())
}
