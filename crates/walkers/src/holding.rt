// Starting a walk that is held, and its steps.
ghost use Rattle.std.specs.Prelude.{◌≡◌, ◌<◌, Some};
ghost use Rattle.records.specs.declared.ir_node.IRNode.{IRNode};
ghost use Rattle.walkers.specs.Bare.{bare};
ghost use Rattle.walkers.specs.HeldWalks.{HeldCall, Steps, to_come};

use crate::config::WalkConfig;
use crate::driving::{is_live, node_at};
use crate::steps::after;
use crate::walk::Walk;
use ir::Context;
use orders::{At, WalkResult};
use records::IRNode;
use result::Refusal;

impl<'a> Walk<'a> {
    // A walk from a root that gave no node yet.
    pub fn new(context: &'a Context, config: WalkConfig, root: IRNode) -> Result<Walk<'a>, Refusal>
        ensures { HeldCall context.now config root result }
    {
        if !is_live(context, root) {
            return Err(Refusal::Dangling);
        }
        Ok(Walk {
            context,
            config,
            root,
            at: At::Start,
        })
    }

    // The next node, by the answer to the node given before; the first step ignores the answer.
    pub fn step<B>(&mut self, answer: &WalkResult<B>) -> Option<IRNode>
        ensures steps { Steps self.old (bare answer.now) result self.new }
        ensures fewer { (n : IRNode) → result ≡ Some n → to_come self.new < to_come self.old }
    {
        self.at = after(self.context, self.config, self.root, self.at, answer);
        node_at(self.at)
    }
}
