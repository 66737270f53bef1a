// Building a store, making operations and blocks in it, and setting notes.
ghost use Rattle.std.specs.Prelude.{◌≡◌, IfOk};
ghost use Rattle.symbol_table.specs.Carried.{Built, MakesBlockIn, MakesOperationIn, NotesIn};

use crate::symbol_tables::SymbolTables;
use forest::Forest;
use mappings::Mappings;
use records::{BlockPtr, MadeOperation, OpPtr, Shape};
use result::Refusal;
use std::alloc::{AllocError, Global};

impl SymbolTables {
    // A store in which nothing was made; it takes all the memory that it will ever need.
    pub fn new(heap: Global) -> Result<SymbolTables, AllocError>
        ensures { IfOk result (λ s. Built s) }
    {
        let forest = Forest::new(heap)?;
        let mappings = Mappings::new(heap)?;
        Ok(SymbolTables { forest, mappings })
    }

    // The nodes, for reading.
    pub fn forest(&self) -> &Forest
        ensures { result.now ≡ self.now.forest }
    {
        &self.forest
    }

    // Makes an operation with its regions and, for a table, its body; the number of a name is given exactly for a symbol.
    pub fn make_operation(
        &mut self,
        shape: Shape,
        name: Option<u16>,
    ) -> Result<MadeOperation, Refusal>
        ensures { MakesOperationIn self.old shape name result self.new }
    {
        if shape.kind().symbol != name.is_some() {
            return Err(Refusal::BadShape);
        }
        self.forest.make_operation(shape, name)
    }

    // Makes a block that stands in no region.
    pub fn make_block(&mut self) -> Result<BlockPtr, Refusal>
        ensures { MakesBlockIn self.old result self.new }
    {
        self.forest.make_block()
    }

    // Sets the note of a live operation.
    pub fn set_note(&mut self, op: OpPtr, note: u32) -> Result<(), Refusal>
        ensures { NotesIn self.old op note result self.new }
    {
        self.forest.set_note(op, note)
    }
}
