// Runs the fields that walk.
// Kept: a field's value and the list of what it shows are lent side by side, see `Nodes`.
ghost use Rattle.std.specs.Prelude.{◌≡◌};
ghost use Rattle.script.specs.Runs.{answer_of, TagRun};
ghost use Rattle.script.specs.Trails.{TrailTableWalk, TrailWalk};
ghost use Rattle.script.specs.Walks.{close_of};
ghost use Rattle.script.specs.declared.tag.Tag.TheVariants.{TableWalk, Walk};

use crate::link::read_number;
use crate::node::{Close, Nodes};
use crate::state::State;
use crate::steering::Steering;
use crate::trail::Trail;
use crate::walk::WalkField;
use records::{IRNode, OpPtr};
use result::Refusal;
use walkers::interruptible::immutable::{walk_block, walk_op, walk_region};
use walkers::{OperationsOnly, WalkConfig, WalkResult, walk_symbol_table};

// What closes the line of a walk.
fn close(said: WalkResult<()>) -> Close
    ensures { result ≡ close_of said }
{
    match said {
        WalkResult::Break(()) => Close::Break,
        WalkResult::Advance | WalkResult::Skip => Close::End,
    }
}

impl State {
    // Walks from a node of any kind.
    fn walk(
        &self,
        config: WalkConfig,
        root: IRNode,
        trail: &mut Trail<'_>,
    ) -> Result<WalkResult<()>, Refusal>
        ensures walk { TrailWalk self.now.context config root trail.old result trail.new }
        ensures same_reference { trail.new.nodes.ghost_name ≡ trail.old.nodes.ghost_name }
    {
        match root {
            IRNode::Operation(op) => walk_op(&self.context, config, op, trail),
            IRNode::BasicBlock(block) => walk_block(&self.context, config, block, trail),
            IRNode::Region(region) => walk_region(&self.context, config, region, trail),
        }
    }

    // Walks, and lists the nodes shown.
    pub(crate) fn run_walk(&self, value: &[u8], nodes: &mut Nodes) -> Result<Close, Refusal>
        ensures { TagRun self.now Walk value.now (answer_of nodes.new.items result) self.now }
    {
        let walk = WalkField::read(value)?;
        let (root, steering) = walk.find(self)?;
        nodes.clear();
        let mut trail = Trail {
            state: self,
            steering,
            nodes,
        };
        let said = self.walk(walk.config, root, &mut trail)?;
        Ok(close(said))
    }

    // Walks a symbol table.
    fn walk_table(
        &self,
        table: OpPtr,
        visitor: &mut OperationsOnly<Trail<'_>>,
    ) -> Result<(), Refusal>
        ensures walk { TrailTableWalk self.now.context table visitor.old result visitor.new }
        ensures same_reference { visitor.new.inner.nodes.ghost_name ≡ visitor.old.inner.nodes.ghost_name }
    {
        walk_symbol_table(&self.context, table, visitor)
    }

    // Walks a symbol table, and lists the operations shown.
    pub(crate) fn run_table_walk(&self, value: &[u8], nodes: &mut Nodes) -> Result<Close, Refusal>
        ensures { TagRun self.now TableWalk value.now (answer_of nodes.new.items result) self.now }
    {
        let number = read_number(value)?;
        let table = self.operations.get(number)?;
        nodes.clear();
        let trail = Trail {
            state: self,
            steering: Steering {
                skip: None,
                end: None,
            },
            nodes,
        };
        let mut visitor = OperationsOnly { inner: trail };
        self.walk_table(table, &mut visitor)?;
        Ok(Close::End)
    }
}
