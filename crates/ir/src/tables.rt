// Symbol tables as users of a store have them, with names as bytes.
ghost use Rattle.std.specs.Prelude.{◌≡◌, true};
ghost use Rattle.identifier.specs.Identifiers.{text};
ghost use Rattle.records.specs.Nodes.{is_table};
ghost use Rattle.ir.specs.Stores.{nodes};
ghost use Rattle.ir.specs.Tables.{EraseSymbolCall, Found, InsertSymbolCall, LookupCall, NearestLookupCall, NearestTableCall, RemoveSymbolCall};

use crate::context::Context;
use identifier::Identifier;
use records::OpPtr;
use result::Refusal;
use symbol_table::OpInsertionPoint;

// A symbol table, named by its operation. Nothing of the store is kept in it, so it never falls behind.
#[derive(Clone, Copy)]
pub struct SymbolTable {
    pub op: OpPtr,
}

impl SymbolTable {
    // The table that is this operation; each call asks whether it is one.
    pub fn new(op: OpPtr) -> SymbolTable
        ensures { result.op ≡ op }
    {
        SymbolTable { op }
    }

    // Puts a symbol into the table's body: at the point, or without one before the last operation if that is a terminator, else at
    // the back.
    pub fn insert(
        self,
        context: &mut Context,
        op: OpPtr,
        point: Option<OpInsertionPoint>,
    ) -> Result<(), Refusal>
        ensures { InsertSymbolCall context.old self.op op point result context.new }
    {
        context.tables.insert(self.op, op, point)
    }

    // Takes a symbol out of the table's body; it is not erased.
    pub fn remove(self, context: &mut Context, op: OpPtr) -> Result<(), Refusal>
        ensures { RemoveSymbolCall context.old self.op op result context.new }
    {
        context.tables.remove(self.op, op)
    }

    // Takes a symbol out of the table's body and erases it with all that lies below it.
    pub fn erase(self, context: &mut Context, op: OpPtr) -> Result<(), Refusal>
        ensures { EraseSymbolCall context.old self.op op result context.new }
    {
        context.tables.erase(self.op, op)
    }

    // The operation that stands in the table's body under a name, if one does. No name is added.
    pub fn lookup(self, context: &Context, name: &[u8]) -> Result<Option<OpPtr>, Refusal>
        ensures { LookupCall context.now self.op name.now result }
    {
        if !context.is_live(self.op) {
            return Err(Refusal::Dangling);
        }
        if !context.tables.forest().is_table(self.op) {
            return Err(Refusal::NotATable);
        }
        let identifier = Identifier::try_new(name)?;
        Ok(context.find_symbol(self.op, identifier))
    }
}

impl Context {
    // The operation that stands in the body of a table under a name, if one does; a name that is not held is found nowhere.
    fn find_symbol(&self, table: OpPtr, name: Identifier) -> Option<OpPtr>
        requires { is_table (nodes self.now) table ≡ true }
        ensures { Found self.now table (text name) result }
    {
        let Some(number) = self.names.find(name) else {
            return None;
        };
        self.tables.lookup(table, number)
    }

    // The first table among the operation itself and its parent operations, or none.
    pub fn nearest_symbol_table(&self, op: OpPtr) -> Result<Option<OpPtr>, Refusal>
        ensures { NearestTableCall self.now op result }
    {
        self.tables.nearest_symbol_table(op)
    }

    // The operation that stands under a name in the body of the table that is nearest to an operation; none where no table is. No name
    // is added.
    pub fn lookup_symbol_in_nearest_table(
        &self,
        op: OpPtr,
        name: &[u8],
    ) -> Result<Option<OpPtr>, Refusal>
        ensures { NearestLookupCall self.now op name.now result }
    {
        let table = self.nearest_symbol_table(op)?;
        let identifier = Identifier::try_new(name)?;
        let Some(table) = table else {
            return Ok(None);
        };
        Ok(self.find_symbol(table, identifier))
    }
}
