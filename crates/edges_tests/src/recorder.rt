// A visitor that keeps the first nodes that it is shown, and answers one of them otherwise than the rest.
ghost use Rattle.std.specs.Prelude.{◌≡◌, ◌+◌, ◌%◌, ◌^◌, ◌==◌, cond};
ghost use Rattle.orders.specs.declared.walk_result.WalkResult.TheVariants.{Advance};
ghost use Rattle.edges_tests.specs.Keeping.{kept};

use ir::Context;
use records::IRNode;
use walkers::{Visitor, WalkResult};

// The nodes, how many they are, and the answer to the node before which so many others were shown.
#[derive(Drop)]
pub struct Recorder {
    pub shown: [Option<IRNode>; 8],
    pub count: usize,
    pub turn: usize,
    pub answer: WalkResult<u32>,
}

impl Recorder {
    // Keeps nothing yet.
    pub fn new(turn: usize, answer: WalkResult<u32>) -> Recorder {
        Recorder {
            shown: [None; 8],
            count: 0,
            turn,
            answer,
        }
    }
}

// Keeps a node at an index; past the last it is not kept.
fn put(shown: &mut [Option<IRNode>; 8], at: usize, node: IRNode)
    ensures { shown.new ≡ kept shown.old at node }
{
    if at < shown.len() {
        shown[at] = Some(node);
    }
}

impl Visitor for Recorder {
    type Break = u32;

    ghost answer = { λ s c n. cond (s.count == s.turn) s.answer Advance };

    ghost next = { λ s c n. record s { shown = kept s.shown s.count n; count = (s.count + 1) % 2 ^ 64 } };

    fn visit(&mut self, context: &Context, node: IRNode) -> WalkResult<u32> {
        let answer = if self.count == self.turn {
            self.answer
        } else {
            WalkResult::Advance
        };
        put(&mut self.shown, self.count, node);
        self.count = self.count.wrapping_add(1);
        answer
    }
}
