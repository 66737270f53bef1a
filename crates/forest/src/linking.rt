// Linking operations into blocks and blocks into regions, and unlinking them. Each call tests its refusals from the top,
// and then edits.
// Kept: a call for operations and one for blocks, a rule of the project, and each tests another row.
ghost use Rattle.forest.specs.Linkings.{LinksBlock, LinksOp, UnlinksBlock, UnlinksOp};

use crate::entering::{container, entered, target};
use crate::forest::Forest;
use linked_list::{Spot, insert, unlink};
use records::{BlockPtr, IRNode, OpPtr, RegionPtr};
use result::Refusal;

impl Forest {
    // Links an operation at a spot of a block.
    pub fn link_op(&mut self, op: OpPtr, spot: Spot<OpPtr, BlockPtr>) -> Result<(), Refusal>
        ensures { LinksOp self.old op spot result self.new }
    {
        let block = entered(&self.records, op, spot)?;
        if self.contains(IRNode::Operation(op), target(spot)) {
            return Err(Refusal::WouldContainItself);
        }
        if self.is_table_bound(op, block) {
            return Err(Refusal::GoesThroughTable);
        }
        insert(&mut self.records, op, block, spot);
        Ok(())
    }

    // Links a block at a spot of a region.
    pub fn link_block(
        &mut self,
        block: BlockPtr,
        spot: Spot<BlockPtr, RegionPtr>,
    ) -> Result<(), Refusal>
        ensures { LinksBlock self.old block spot result self.new }
    {
        let region = entered(&self.records, block, spot)?;
        if self.is_of_table(region) {
            return Err(Refusal::FixedBody);
        }
        if self.contains(IRNode::BasicBlock(block), target(spot)) {
            return Err(Refusal::WouldContainItself);
        }
        insert(&mut self.records, block, region, spot);
        Ok(())
    }

    // Unlinks an operation from its block.
    pub fn unlink_op(&mut self, op: OpPtr) -> Result<(), Refusal>
        ensures { UnlinksOp self.old op result self.new }
    {
        let block = container(&self.records, op)?;
        if self.is_table_bound(op, block) {
            return Err(Refusal::GoesThroughTable);
        }
        unlink(&mut self.records, op);
        Ok(())
    }

    // Unlinks a block from its region.
    pub fn unlink_block(&mut self, block: BlockPtr) -> Result<(), Refusal>
        ensures { UnlinksBlock self.old block result self.new }
    {
        let region = container(&self.records, block)?;
        if self.is_of_table(region) {
            return Err(Refusal::FixedBody);
        }
        unlink(&mut self.records, block);
        Ok(())
    }
}
