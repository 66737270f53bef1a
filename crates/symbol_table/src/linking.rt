// Linking operations into blocks and blocks into regions, and unlinking them: no call here takes a symbol into the body of a table, or
// out of it.
// Kept: a call for operations and one for blocks, a rule of the project.
ghost use Rattle.symbol_table.specs.Carried.{LinksBlockIn, LinksOpIn, UnlinksBlockIn, UnlinksOpIn};

use crate::symbol_tables::SymbolTables;
use linked_list::Spot;
use records::{BlockPtr, OpPtr, RegionPtr};
use result::Refusal;

impl SymbolTables {
    // Links an operation at a spot of a block.
    pub fn link_op(&mut self, op: OpPtr, spot: Spot<OpPtr, BlockPtr>) -> Result<(), Refusal>
        ensures { LinksOpIn self.old op spot result self.new }
    {
        self.forest.link_op(op, spot)
    }

    // Links a block at a spot of a region.
    pub fn link_block(
        &mut self,
        block: BlockPtr,
        spot: Spot<BlockPtr, RegionPtr>,
    ) -> Result<(), Refusal>
        ensures { LinksBlockIn self.old block spot result self.new }
    {
        self.forest.link_block(block, spot)
    }

    // Unlinks an operation from its block.
    pub fn unlink_op(&mut self, op: OpPtr) -> Result<(), Refusal>
        ensures { UnlinksOpIn self.old op result self.new }
    {
        self.forest.unlink_op(op)
    }

    // Unlinks a block from its region.
    pub fn unlink_block(&mut self, block: BlockPtr) -> Result<(), Refusal>
        ensures { UnlinksBlockIn self.old block result self.new }
    {
        self.forest.unlink_block(block)
    }
}
