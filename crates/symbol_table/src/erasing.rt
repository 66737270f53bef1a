// Erasing operations, blocks and symbols of tables. The names of every table that ends go with it.
// Kept: a call for operations and one for blocks, a rule of the project.
ghost use Rattle.forest.specs.Forests.{model};
ghost use Rattle.mappings.specs.Edits.{Retained};
ghost use Rattle.records.specs.Views.{op_links};
ghost use Rattle.symbol_table.specs.Erasing.{Erases, ErasesBlockIn, ErasesOpIn};

use crate::symbol_tables::SymbolTables;
use forest::Forest;
use mappings::{Keeper, Mappings};
use records::{BlockPtr, OpPtr};
use result::Refusal;

// Keeps the names of the tables that are live.
#[derive(Drop)]
struct LiveTables<'a> {
    forest: &'a Forest,
}

impl Keeper for LiveTables<'_> {
    ghost keeps = { λ tables. (op_links (model tables.forest.now)).live };

    fn is_kept(&self, table: OpPtr) -> bool {
        self.forest.is_live(table)
    }
}

// Takes away the names of the tables that are not live.
fn end_names(forest: &Forest, mappings: &mut Mappings)
    ensures { Retained (op_links (model forest.now)).live mappings.old mappings.new }
{
    mappings.retain(&LiveTables { forest });
}

impl SymbolTables {
    // Erases an operation with its regions and all that lies below them.
    pub fn erase_op(&mut self, op: OpPtr) -> Result<(), Refusal>
        ensures { ErasesOpIn self.old op result self.new }
    {
        self.forest.erase_op(op)?;
        end_names(&self.forest, &mut self.mappings);
        Ok(())
    }

    // Erases a block with its operations and all that lies below them.
    pub fn erase_block(&mut self, block: BlockPtr) -> Result<(), Refusal>
        ensures { ErasesBlockIn self.old block result self.new }
    {
        self.forest.erase_block(block)?;
        end_names(&self.forest, &mut self.mappings);
        Ok(())
    }

    // Takes a symbol out of the table's body and erases it. No row refuses that, once it is taken out.
    pub fn erase(&mut self, table: OpPtr, op: OpPtr) -> Result<(), Refusal>
        ensures { Erases self.old table op result self.new }
    {
        self.remove(table, op)?;
        self.erase_op(op)
    }
}
