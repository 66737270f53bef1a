// A visitor that reads the notes of the operations that it is shown as the digits of a number.
ghost use Rattle.std.specs.Prelude.{◌≡◌};
ghost use Rattle.orders.specs.declared.walk_result.WalkResult.TheVariants.{Advance};
ghost use Rattle.ir.specs.Stores.{nodes};
ghost use Rattle.walkers.specs.Notes.{note_of};
ghost use Rattle.walkers_tests.specs.Digits.{with_digit};

use ir::{Context, IRNode, OpPtr};
use walkers::{Visitor, WalkResult};

// The number so far.
#[derive(Drop)]
pub struct Digits {
    pub number: u64,
}

// The note of an operation; 0 where it is dead.
fn note(context: &Context, op: OpPtr) -> u32
    ensures { result ≡ note_of (nodes context.now) op }
{
    match context.get(op) {
        Some(operation) => operation.note,
        None => 0,
    }
}

impl Visitor for Digits {
    type Break = ();

    ghost answer = { λ v s n. Advance };

    ghost next = { λ v s n. record { number = with_digit s v.number n } };

    fn visit(&mut self, context: &Context, node: IRNode) -> WalkResult<()> {
        if let IRNode::Operation(op) = node {
            let digit = u64::from(note(context, op));
            self.number = self.number.wrapping_mul(10).wrapping_add(digit);
        }
        WalkResult::Advance
    }
}
