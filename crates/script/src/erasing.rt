// Runs the fields that erase nodes. Each method tests a row of its refusals in a line, from the top: the value, its number, and those
// of the store's call. A node that ended keeps its number, so that no number is given twice.
// Kept: a field's value and the list of what it shows are lent side by side, see `Nodes`; and a method for operations and one for
// blocks, as the store has its calls.
ghost use Rattle.script.specs.Runs.{answer_of, TagRun};
ghost use Rattle.script.specs.declared.tag.Tag.TheVariants.{EraseOperation, EraseBlock};

use crate::link::read_number;
use crate::node::{Close, Nodes};
use crate::state::State;
use result::Refusal;

impl State {
    // Erases an operation, with all that lies below it.
    pub(crate) fn run_erase_operation(
        &mut self,
        value: &[u8],
        nodes: &mut Nodes,
    ) -> Result<Close, Refusal>
        ensures { TagRun self.old EraseOperation value.now (answer_of nodes.new.items result) self.new }
    {
        let number = read_number(value)?;
        let op = self.operations.get(number)?;
        self.context.erase_op(op)?;
        nodes.clear();
        Ok(Close::Nothing)
    }

    // Erases a block, with all that lies below it.
    pub(crate) fn run_erase_block(
        &mut self,
        value: &[u8],
        nodes: &mut Nodes,
    ) -> Result<Close, Refusal>
        ensures { TagRun self.old EraseBlock value.now (answer_of nodes.new.items result) self.new }
    {
        let number = read_number(value)?;
        let block = self.blocks.get(number)?;
        self.context.erase_block(block)?;
        nodes.clear();
        Ok(Close::Nothing)
    }
}
