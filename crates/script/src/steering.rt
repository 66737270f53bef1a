// What answers a walk gets.
ghost use Rattle.std.specs.Prelude.{◌≡◌};
ghost use Rattle.script.specs.Answers.{answer_at, is_at, same_node};

use records::IRNode;
use walkers::WalkResult;

// The node at which a walk is answered Skip, and the one at which it is answered Break.
#[derive(Clone, Copy, Drop)]
pub(crate) struct Steering {
    pub(crate) skip: Option<IRNode>,
    pub(crate) end: Option<IRNode>,
}

// Whether two handles name one node.
fn same_node(a: IRNode, b: IRNode) -> bool
    ensures { result ≡ same_node a b }
{
    a == b
}

// Whether a node is the one that there may be.
fn is_at(wanted: Option<IRNode>, node: IRNode) -> bool
    ensures { result ≡ is_at wanted node }
{
    match wanted {
        Some(one) => same_node(one, node),
        None => false,
    }
}

impl Steering {
    // The answer to a node: Break comes before Skip.
    pub(crate) fn answer(self, node: IRNode) -> WalkResult<()>
        ensures { result ≡ answer_at self.skip self.end node }
    {
        if is_at(self.end, node) {
            WalkResult::Break(())
        } else if is_at(self.skip, node) {
            WalkResult::Skip
        } else {
            WalkResult::Advance
        }
    }
}
