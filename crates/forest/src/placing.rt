// Linking and unlinking operations for one who has asked what is said of symbols in the bodies of tables: the refusals are those
// of linking and unlinking, but for that one.
ghost use Rattle.forest.specs.Placings.{PlacesOp, TakesOp};

use crate::entering::{container, entered, target};
use crate::forest::Forest;
use linked_list::{Spot, insert, unlink};
use records::{BlockPtr, IRNode, OpPtr};
use result::Refusal;

impl Forest {
    // Links an operation at a spot of a block, also a symbol into the body of a table.
    pub fn place_op(&mut self, op: OpPtr, spot: Spot<OpPtr, BlockPtr>) -> Result<(), Refusal>
        ensures { PlacesOp self.old op spot result self.new }
    {
        let block = entered(&self.records, op, spot)?;
        if self.contains(IRNode::Operation(op), target(spot)) {
            return Err(Refusal::WouldContainItself);
        }
        insert(&mut self.records, op, block, spot);
        Ok(())
    }

    // Unlinks an operation from its block, also a symbol from the body of a table.
    pub fn take_op(&mut self, op: OpPtr) -> Result<(), Refusal>
        ensures { TakesOp self.old op result self.new }
    {
        container(&self.records, op)?;
        unlink(&mut self.records, op);
        Ok(())
    }
}
