// Runs the fields that put a symbol into a table, take one out and erase one. Each method tests a row of its refusals in a line, from the top:
// the value, its numbers, and those of the store's call.
// Kept: a field's value and the list of what it shows are lent side by side, see `Nodes`.
ghost use Rattle.script.specs.Runs.{answer_of, TagRun};
ghost use Rattle.script.specs.declared.tag.Tag.TheVariants.{EraseSymbol, InsertSymbol, RemoveSymbol};

use crate::node::{Close, Nodes};
use crate::state::State;
use crate::symbol::{Insertion, Pair};
use ir::SymbolTable;
use result::Refusal;

impl State {
    // Puts a symbol into a table.
    pub(crate) fn run_insert_symbol(
        &mut self,
        value: &[u8],
        nodes: &mut Nodes,
    ) -> Result<Close, Refusal>
        ensures { TagRun self.old InsertSymbol value.now (answer_of nodes.new.items result) self.new }
    {
        let insertion = Insertion::read(value)?;
        let ((table, op), point) = insertion.find(self)?;
        SymbolTable::new(table).insert(&mut self.context, op, point)?;
        nodes.clear();
        Ok(Close::Nothing)
    }

    // Takes a symbol out of a table.
    pub(crate) fn run_remove_symbol(
        &mut self,
        value: &[u8],
        nodes: &mut Nodes,
    ) -> Result<Close, Refusal>
        ensures { TagRun self.old RemoveSymbol value.now (answer_of nodes.new.items result) self.new }
    {
        let pair = Pair::read(value)?;
        let (table, op) = pair.find(self)?;
        SymbolTable::new(table).remove(&mut self.context, op)?;
        nodes.clear();
        Ok(Close::Nothing)
    }

    // Takes a symbol out of a table and erases it, with all that lies below it.
    pub(crate) fn run_erase_symbol(
        &mut self,
        value: &[u8],
        nodes: &mut Nodes,
    ) -> Result<Close, Refusal>
        ensures { TagRun self.old EraseSymbol value.now (answer_of nodes.new.items result) self.new }
    {
        let pair = Pair::read(value)?;
        let (table, op) = pair.find(self)?;
        SymbolTable::new(table).erase(&mut self.context, op)?;
        nodes.clear();
        Ok(Close::Nothing)
    }
}
