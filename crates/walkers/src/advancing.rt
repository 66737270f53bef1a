// A visitor that never ends a walk and skips nothing, whatever the visitor inside answers.
ghost use Rattle.orders.specs.declared.walk_result.WalkResult.TheVariants.{Advance};

use crate::visitor::{Visitor, VisitorMut};
use ir::Context;
use orders::WalkResult;
use records::IRNode;

// Shows the visitor inside each node, and advances.
#[derive(Drop)]
pub struct Uninterruptible<V> {
    pub inner: V,
}

impl<V: Visitor> Visitor for Uninterruptible<V>
where
    V::Break: Drop,
{
    type Break = V::Break;

    ghost answer = { λ s c n. Advance };

    ghost next = { λ s c n. record { inner = V.next s.inner c n } };

    fn visit(&mut self, context: &Context, node: IRNode) -> WalkResult<V::Break> {
        let _ = self.inner.visit(context, node);
        WalkResult::Advance
    }
}

impl<V: VisitorMut> VisitorMut for Uninterruptible<V>
where
    V::Break: Drop,
{
    type Break = V::Break;

    ghost answer = { λ s c n. Advance };

    ghost next = { λ s c n. record { inner = V.next s.inner c n } };

    ghost notes = { λ s c n. V.notes s.inner c n };

    fn visit(&mut self, context: &mut Context, node: IRNode) -> WalkResult<V::Break> {
        let _ = self.inner.visit(context, node);
        WalkResult::Advance
    }
}
