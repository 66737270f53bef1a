// Linking operations into blocks and blocks into regions, unlinking them, and going through children.
// Kept: each call once for operations and once for blocks, and one for each spot, a rule of the project: a block's handle where an
// operation's is wanted must not compile.
ghost use Rattle.linked_list.specs.declared.spot.Spot.TheVariants.{After, AtBack, AtFront, Before};
ghost use Rattle.ir.specs.Iterating.{IterBlocksCall, IterOpsCall};
ghost use Rattle.ir.specs.Linkings.{InsertBlockCall, BlockIsLinked, UnlinkBlockCall, InsertOpCall, OpIsLinked, UnlinkOpCall};

use crate::context::Context;
use forest::{BlockIter, OpIter};
use linked_list::Spot;
use records::{BlockPtr, OpPtr, RegionPtr};
use result::Refusal;

impl Context {
    // Links an operation into a block, as its first.
    pub fn insert_op_at_front(&mut self, op: OpPtr, block: BlockPtr) -> Result<(), Refusal>
        ensures { InsertOpCall self.old op (AtFront block) result self.new }
    {
        self.insert_op(op, Spot::AtFront(block))
    }

    // Links an operation into a block, as its last.
    pub fn insert_op_at_back(&mut self, op: OpPtr, block: BlockPtr) -> Result<(), Refusal>
        ensures { InsertOpCall self.old op (AtBack block) result self.new }
    {
        self.insert_op(op, Spot::AtBack(block))
    }

    // Links an operation right before another, into its block.
    pub fn insert_op_before(&mut self, op: OpPtr, mark: OpPtr) -> Result<(), Refusal>
        ensures { InsertOpCall self.old op (Before mark) result self.new }
    {
        self.insert_op(op, Spot::Before(mark))
    }

    // Links an operation right after another, into its block.
    pub fn insert_op_after(&mut self, op: OpPtr, mark: OpPtr) -> Result<(), Refusal>
        ensures { InsertOpCall self.old op (After mark) result self.new }
    {
        self.insert_op(op, Spot::After(mark))
    }

    // Links an operation at a spot of a block.
    pub fn insert_op(&mut self, op: OpPtr, spot: Spot<OpPtr, BlockPtr>) -> Result<(), Refusal>
        ensures { InsertOpCall self.old op spot result self.new }
    {
        self.tables.link_op(op, spot)
    }

    // Unlinks an operation from its block.
    pub fn unlink_op(&mut self, op: OpPtr) -> Result<(), Refusal>
        ensures { UnlinkOpCall self.old op result self.new }
    {
        self.tables.unlink_op(op)
    }

    // Whether an operation stands in a block.
    #[tactic(auto, using(crate::proofs::Dangling::names_none))]
    pub fn is_op_linked(&self, op: OpPtr) -> Result<bool, Refusal>
        ensures { OpIsLinked self.now op result }
    {
        let operation = self.tables.forest().get(op).ok_or(Refusal::Dangling)?;
        Ok(operation.container.is_some())
    }

    // Links a block into a region, as its first.
    pub fn insert_block_at_front(
        &mut self,
        block: BlockPtr,
        region: RegionPtr,
    ) -> Result<(), Refusal>
        ensures { InsertBlockCall self.old block (AtFront region) result self.new }
    {
        self.insert_block(block, Spot::AtFront(region))
    }

    // Links a block into a region, as its last.
    pub fn insert_block_at_back(
        &mut self,
        block: BlockPtr,
        region: RegionPtr,
    ) -> Result<(), Refusal>
        ensures { InsertBlockCall self.old block (AtBack region) result self.new }
    {
        self.insert_block(block, Spot::AtBack(region))
    }

    // Links a block right before another, into its region.
    pub fn insert_block_before(&mut self, block: BlockPtr, mark: BlockPtr) -> Result<(), Refusal>
        ensures { InsertBlockCall self.old block (Before mark) result self.new }
    {
        self.insert_block(block, Spot::Before(mark))
    }

    // Links a block right after another, into its region.
    pub fn insert_block_after(&mut self, block: BlockPtr, mark: BlockPtr) -> Result<(), Refusal>
        ensures { InsertBlockCall self.old block (After mark) result self.new }
    {
        self.insert_block(block, Spot::After(mark))
    }

    // Links a block at a spot of a region.
    pub fn insert_block(
        &mut self,
        block: BlockPtr,
        spot: Spot<BlockPtr, RegionPtr>,
    ) -> Result<(), Refusal>
        ensures { InsertBlockCall self.old block spot result self.new }
    {
        self.tables.link_block(block, spot)
    }

    // Unlinks a block from its region.
    pub fn unlink_block(&mut self, block: BlockPtr) -> Result<(), Refusal>
        ensures { UnlinkBlockCall self.old block result self.new }
    {
        self.tables.unlink_block(block)
    }

    // Whether a block stands in a region.
    #[tactic(auto, using(crate::proofs::Dangling::names_none))]
    pub fn is_block_linked(&self, block: BlockPtr) -> Result<bool, Refusal>
        ensures { BlockIsLinked self.now block result }
    {
        let block = self.tables.forest().get(block).ok_or(Refusal::Dangling)?;
        Ok(block.container.is_some())
    }

    // The operations of a block, to be gone through from either end.
    pub fn iter_ops(&self, block: BlockPtr) -> Result<OpIter<'_>, Refusal>
        ensures { IterOpsCall self.now block result }
    {
        self.tables.forest().iter_ops(block)
    }

    // The blocks of a region, to be gone through from either end.
    pub fn iter_blocks(&self, region: RegionPtr) -> Result<BlockIter<'_>, Refusal>
        ensures { IterBlocksCall self.now region result }
    {
        self.tables.forest().iter_blocks(region)
    }
}
