// Looking up symbols, and finding the table that is nearest to an operation.
ghost use Rattle.std.specs.Prelude.{◌≡◌};
ghost use Rattle.mappings.specs.Held.{mapped};
ghost use Rattle.symbol_table.specs.Carried.{nodes};
ghost use Rattle.symbol_table.specs.Lookups.{LooksUp, NearestCall};

use crate::symbol_tables::SymbolTables;
use records::OpPtr;
use result::Refusal;

impl SymbolTables {
    // The operation that stands in the table's body under the name with this number, if one does.
    pub fn lookup(&self, table: OpPtr, number: u16) -> Option<OpPtr>
        ensures mapped { result ≡ mapped self.now.mappings table number }
        ensures stands { LooksUp (nodes self.now) table number result }
    {
        self.mappings.find(table, number)
    }

    // The first table among the operation itself and its parent operations, or none: climbs from the operation until it meets one.
    pub fn nearest_symbol_table(&self, op: OpPtr) -> Result<Option<OpPtr>, Refusal>
        ensures { NearestCall self.now op result }
    {
        if !self.forest.is_live(op) {
            return Err(Refusal::Dangling);
        }
        let mut at = Some(op);
        'climb: while let Some(here) = at {
            if self.forest.is_table(here) {
                return Ok(Some(here));
            }
            at = self.parent_op(here);
        }
        Ok(None)
    }
}
