// A visitor that shows the visitor inside operations alone, and no table among them. For walks of a table's region: each table met is
// nested there, and is skipped unseen with all below it.
ghost use Rattle.std.specs.Prelude.{◌≡◌};
ghost use Rattle.records.specs.Nodes.{is_table};
ghost use Rattle.ir.specs.Stores.{nodes};
ghost use Rattle.walkers.specs.Operations.{left, only_answer, only_next};

use crate::visitor::{Visitor, VisitorMut};
use ir::Context;
use orders::WalkResult;
use records::{IRNode, OpPtr};

// Shows the visitor inside each operation that is no table and passes on its answer; skips tables, and advances at all else.
#[derive(Drop)]
pub struct OperationsOnly<V> {
    pub inner: V,
}

// Whether an operation is a table.
fn is_table(context: &Context, op: OpPtr) -> bool
    ensures { result ≡ is_table (nodes context.now) op }
{
    match context.get(op) {
        Some(operation) => operation.kind.table,
        None => false,
    }
}

impl<V: Visitor> Visitor for OperationsOnly<V> {
    type Break = V::Break;

    ghost answer = { only_answer V.answer };

    ghost next = { only_next V.next };

    fn visit(&mut self, context: &Context, node: IRNode) -> WalkResult<V::Break> {
        match node {
            IRNode::Operation(op) => {
                if is_table(context, op) {
                    return WalkResult::Skip;
                }
                self.inner.visit(context, node)
            }
            IRNode::BasicBlock(_) => WalkResult::Advance,
            IRNode::Region(_) => WalkResult::Advance,
        }
    }
}

impl<V: VisitorMut> VisitorMut for OperationsOnly<V> {
    type Break = V::Break;

    ghost answer = { only_answer V.answer };

    ghost next = { only_next V.next };

    ghost notes = { λ s c n. left V.notes s.inner c n };

    #[tactic(auto, using(crate::proofs::Setting::none_set))]
    fn visit(&mut self, context: &mut Context, node: IRNode) -> WalkResult<V::Break> {
        match node {
            IRNode::Operation(op) => {
                if is_table(context, op) {
                    return WalkResult::Skip;
                }
                self.inner.visit(context, node)
            }
            IRNode::BasicBlock(_) => WalkResult::Advance,
            IRNode::Region(_) => WalkResult::Advance,
        }
    }
}
