// Ending the records of live nodes: each frees its place and leaves all links as they are.
// Kept: one call for each kind of node, since the kinds never meet, and `Ptr` lends its table for reading alone.
ghost use Rattle.std.specs.Prelude.{◌≡◌, true};
ghost use Rattle.arena.specs.Pools.{live};
ghost use Rattle.records.specs.declared.ir_node.IRNode.TheVariants.{BasicBlock, Operation, Region};
ghost use Rattle.records.specs.Endings.{without};
ghost use Rattle.records.specs.Models.{tables};

use crate::handles::{BlockPtr, OpPtr, RegionPtr};
use crate::records::Records;

impl Records {
    // Ends the record of a live operation.
    pub fn free_op(&mut self, op: OpPtr)
        requires { live (tables self.old).operations.pool op.handle ≡ true }
        ensures { tables self.new ≡ without (Operation op) (tables self.old) }
    {
        self.operations.free(op.handle);
    }

    // Ends the record of a live block.
    pub fn free_block(&mut self, block: BlockPtr)
        requires { live (tables self.old).blocks.pool block.handle ≡ true }
        ensures { tables self.new ≡ without (BasicBlock block) (tables self.old) }
    {
        self.blocks.free(block.handle);
    }

    // Ends the record of a live region.
    pub fn free_region(&mut self, region: RegionPtr)
        requires { live (tables self.old).regions.pool region.handle ≡ true }
        ensures { tables self.new ≡ without (Region region) (tables self.old) }
    {
        self.regions.free(region.handle);
    }
}
