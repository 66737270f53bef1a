// Erasing operations and blocks with all that lies below them. Each call tests its refusals from the top, unlinks the node if it is
// linked, and then erases it.
// Kept: a call for operations and one for blocks, a rule of the project, and each tests another row. Regions go with their operation.
ghost use Rattle.forest.specs.Erasings.{ErasesBlock, ErasesOp};

use crate::forest::Forest;
use linked_list::unlink;
use records::{BlockPtr, OpPtr};
use result::Refusal;

impl Forest {
    // Erases an operation with its regions and all that lies below them.
    pub fn erase_op(&mut self, op: OpPtr) -> Result<(), Refusal>
        ensures { ErasesOp self.old op result self.new }
    {
        if !self.records.is_live(op) {
            return Err(Refusal::Dangling);
        }
        if self.is_bound(op) {
            return Err(Refusal::GoesThroughTable);
        }
        unlink(&mut self.records, op);
        erasers::erase_op(&mut self.records, op);
        Ok(())
    }

    // Erases a block with its operations and all that lies below them.
    pub fn erase_block(&mut self, block: BlockPtr) -> Result<(), Refusal>
        ensures { ErasesBlock self.old block result self.new }
    {
        if !self.records.is_live(block) {
            return Err(Refusal::Dangling);
        }
        if self.is_body(block) {
            return Err(Refusal::FixedBody);
        }
        unlink(&mut self.records, block);
        erasers::erase_block(&mut self.records, block);
        Ok(())
    }
}
