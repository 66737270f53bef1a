// Erasing operations and blocks with all that lies below them. The names of tables that end go with them.
// Kept: a call for operations and one for blocks, a rule of the project: a block's handle where an operation's is wanted must not
// compile.
ghost use Rattle.ir.specs.Erasings.{EraseBlockCall, EraseOpCall};

use crate::context::Context;
use records::{BlockPtr, OpPtr};
use result::Refusal;

impl Context {
    // Erases an operation with its regions and all that lies below them; it is unlinked first, if it stands in a block.
    pub fn erase_op(&mut self, op: OpPtr) -> Result<(), Refusal>
        ensures { EraseOpCall self.old op result self.new }
    {
        self.tables.erase_op(op)
    }

    // Erases a block with its operations and all that lies below them; it is unlinked first, if it stands in a region.
    pub fn erase_block(&mut self, block: BlockPtr) -> Result<(), Refusal>
        ensures { EraseBlockCall self.old block result self.new }
    {
        self.tables.erase_block(block)
    }
}
