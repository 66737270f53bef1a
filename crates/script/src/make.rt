// Runs the fields that make nodes. Each method tests the rows of its refusals from the top, and then makes.
// Kept: a field's value and the list of what it shows are lent side by side, see `Nodes`; and the kind is a sum in a byte, as the
// field has it, since a sum above 7 is a refusal of the store's own.
ghost use Rattle.std.specs.Prelude.{MatchBool};
ghost use Rattle.script.specs.Makes.{NumbersOut};
ghost use Rattle.script.specs.Runs.{answer_of, OperationRun, TagRun};
ghost use Rattle.script.specs.declared.tag.Tag.TheVariants.{MakeOperation, MakeBlock};

use crate::node::{Close, Nodes};
use crate::state::State;
use records::Shape;
use result::Refusal;

impl State {
    // Makes an operation: the value is a kind byte, a byte that counts its regions, and its name.
    pub(crate) fn run_make_operation(
        &mut self,
        value: &[u8],
        nodes: &mut Nodes,
    ) -> Result<Close, Refusal>
        ensures { TagRun self.old MakeOperation value.now (answer_of nodes.new.items result) self.new }
    {
        let [kind, regions, name @ ..] = value else {
            return Err(Refusal::BadField);
        };
        self.make_operation(*kind, *regions, name, nodes)
    }

    // Makes an operation, with its regions and, if it is a table, its body.
    fn make_operation(
        &mut self,
        kind: u8,
        regions: u8,
        name: &[u8],
        nodes: &mut Nodes,
    ) -> Result<Close, Refusal>
        ensures { OperationRun self.old kind regions name.now (answer_of nodes.new.items result) self.new }
    {
        if self.numbers_run_out(kind, regions, name) {
            return Err(Refusal::NumberingFull);
        }
        let made = self.context.make_operation(kind, regions, name)?;
        nodes.clear();
        self.operations.number(&[made.operation], nodes);
        self.regions.number(made.regions.as_slice(), nodes);
        self.blocks.number(made.body.as_slice(), nodes);
        Ok(Close::Nothing)
    }

    // Makes a block.
    pub(crate) fn run_make_block(
        &mut self,
        value: &[u8],
        nodes: &mut Nodes,
    ) -> Result<Close, Refusal>
        ensures { TagRun self.old MakeBlock value.now (answer_of nodes.new.items result) self.new }
    {
        if !value.is_empty() {
            return Err(Refusal::BadField);
        }
        if !self.has_numbers(0, 1, 0) {
            return Err(Refusal::NumberingFull);
        }
        let block = self.context.make_block()?;
        nodes.clear();
        self.blocks.number(&[block], nodes);
        Ok(Close::Nothing)
    }

    // Whether an operation of an allowed shape, its regions and, if it is a table, its body would need more numbers than are left.
    fn numbers_run_out(&self, kind: u8, regions: u8, name: &[u8]) -> bool
        ensures { MatchBool result (NumbersOut self.now kind regions name.now) (NumbersOut self.now kind regions name.now → ⊥) }
    {
        // Kept: `is_some_and` was tried, and what its closure answers was not proved.
        let Some(shape) = Shape::new(kind, regions, !name.is_empty()) else {
            return false;
        };
        !self.has_numbers(1, usize::from(shape.kind().table), shape.regions())
    }
}
