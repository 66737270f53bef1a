// Runs the fields that link and unlink nodes. Each method tests a row of its refusals in a line, from the top: the value, its
// numbers, and those of the store's call.
// Kept: a field's value and the list of what it shows are lent side by side, see `Nodes`; and a method for operations and one for
// blocks, as the store has its calls.
ghost use Rattle.script.specs.Runs.{answer_of, TagRun};
ghost use Rattle.script.specs.declared.tag.Tag.TheVariants.{LinkOperation, LinkBlock, UnlinkOperation, UnlinkBlock};

use crate::link::{Link, read_number};
use crate::node::{Close, Nodes};
use crate::state::State;
use result::Refusal;

impl State {
    // Links an operation.
    pub(crate) fn run_link_operation(
        &mut self,
        value: &[u8],
        nodes: &mut Nodes,
    ) -> Result<Close, Refusal>
        ensures { TagRun self.old LinkOperation value.now (answer_of nodes.new.items result) self.new }
    {
        let link = Link::read(value)?;
        let (op, spot) = link.find(&self.operations, &self.blocks)?;
        self.context.insert_op(op, spot)?;
        nodes.clear();
        Ok(Close::Nothing)
    }

    // Links a block.
    pub(crate) fn run_link_block(
        &mut self,
        value: &[u8],
        nodes: &mut Nodes,
    ) -> Result<Close, Refusal>
        ensures { TagRun self.old LinkBlock value.now (answer_of nodes.new.items result) self.new }
    {
        let link = Link::read(value)?;
        let (block, spot) = link.find(&self.blocks, &self.regions)?;
        self.context.insert_block(block, spot)?;
        nodes.clear();
        Ok(Close::Nothing)
    }

    // Unlinks an operation.
    pub(crate) fn run_unlink_operation(
        &mut self,
        value: &[u8],
        nodes: &mut Nodes,
    ) -> Result<Close, Refusal>
        ensures { TagRun self.old UnlinkOperation value.now (answer_of nodes.new.items result) self.new }
    {
        let number = read_number(value)?;
        let op = self.operations.get(number)?;
        self.context.unlink_op(op)?;
        nodes.clear();
        Ok(Close::Nothing)
    }

    // Unlinks a block.
    pub(crate) fn run_unlink_block(
        &mut self,
        value: &[u8],
        nodes: &mut Nodes,
    ) -> Result<Close, Refusal>
        ensures { TagRun self.old UnlinkBlock value.now (answer_of nodes.new.items result) self.new }
    {
        let number = read_number(value)?;
        let block = self.blocks.get(number)?;
        self.context.unlink_block(block)?;
        nodes.clear();
        Ok(Close::Nothing)
    }
}
