// Putting symbols into tables, and taking them out. Each call tests its refusals from the top, then edits the body, then the mappings.
ghost use Rattle.symbol_table.specs.Inserting.{Inserts, Removes};

use crate::op_insertion_point::OpInsertionPoint;
use crate::symbol_tables::SymbolTables;
use records::OpPtr;
use result::Refusal;

impl SymbolTables {
    // Puts a symbol into the table's body: at the point, or without one before the last operation if that is a terminator, else at
    // the back.
    pub fn insert(
        &mut self,
        table: OpPtr,
        op: OpPtr,
        point: Option<OpInsertionPoint>,
    ) -> Result<(), Refusal>
        ensures { Inserts self.old table op point result self.new }
    {
        let admitted = self.admit(table, op, point)?;
        self.forest.place_op(op, admitted.spot)?;
        // There is room, since the operations that are mapped are distinct live ones, and this one was not.
        let _ = self.mappings.put(table, admitted.number, op);
        Ok(())
    }

    // Takes a symbol out of the table's body; it is not erased.
    pub fn remove(&mut self, table: OpPtr, op: OpPtr) -> Result<(), Refusal>
        ensures { Removes self.old table op result self.new }
    {
        let number = self.wanted(table, op)?;
        if self.parent_op(op) != Some(table) {
            return Err(Refusal::SymbolOpNotInTableOp);
        }
        self.forest.take_op(op)?;
        let _ = self.mappings.take(table, number);
        Ok(())
    }
}
