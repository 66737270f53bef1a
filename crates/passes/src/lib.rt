// Small passes over a store: how its calls are used from outside.
#![tactic(auto)]

mod finding;
mod holding;
mod looking;
mod moving;
mod numbering;
mod stepping;
mod subtree;

ghost use Rattle.passes.specs.Firsts.{FirstTaken};

pub use finding::{TerminatorFinder, first_terminator};
pub use holding::unlink_first_by_walk;
use ir::{BlockPtr, Context, OpPtr};
pub use looking::lookup_from_below;
pub use moving::{NotMoved, move_symbol};
pub use numbering::Numberer;
use result::Refusal;
pub use stepping::walk_by_steps;
pub use subtree::number_operations;

// Unlinks the first operation of a block, if it has one. The iterator ends before the store is edited.
pub fn unlink_first(context: &mut Context, block: BlockPtr) -> Result<Option<OpPtr>, Refusal>
    ensures { FirstTaken context.old block result context.new }
{
    let mut operations = context.iter_ops(block)?;
    let Some(op) = operations.next() else {
        return Ok(None);
    };
    context.unlink_op(op)?;
    Ok(Some(op))
}
