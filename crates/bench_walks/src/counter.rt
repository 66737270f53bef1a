// A visitor that counts.
ghost use Rattle.std.specs.Prelude.{◌+◌, ◌%◌, ◌^◌};
ghost use Rattle.orders.specs.declared.walk_result.WalkResult.TheVariants.{Advance};

use ir::{Context, IRNode};
use walkers::{Visitor, WalkResult};

// How many nodes it was shown.
#[derive(Drop)]
pub struct Counter {
    pub shown: u64,
}

impl Visitor for Counter {
    type Break = ();

    ghost answer = { λ v s n. Advance };

    ghost next = { λ v s n. record { shown = (v.shown + 1) % 2 ^ 64 } };

    fn visit(&mut self, context: &Context, node: IRNode) -> WalkResult<()> {
        self.shown = self.shown.wrapping_add(1);
        WalkResult::Advance
    }
}
