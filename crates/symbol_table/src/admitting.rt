// Testing the rows of putting a symbol into a table and of taking it out, in their order; nothing changes.
ghost use Rattle.symbol_table.specs.Carried.{nodes};
ghost use Rattle.symbol_table.specs.Steps.{Admits, SpotFound, Wants};
ghost use Rattle.std.specs.Prelude.{◌≡◌, true, MatchBool};
ghost use Rattle.records.specs.Nodes.{is_table};
ghost use Rattle.symbol_table.specs.Inserting.{OtherParent};

use crate::op_insertion_point::OpInsertionPoint;
use crate::reading::point_spot;
use crate::symbol_tables::SymbolTables;
use linked_list::Spot;
use records::{BlockPtr, OpPtr};
use result::Refusal;

// The number of a symbol's name, and where in the body the symbol goes.
#[derive(Clone, Copy)]
pub(crate) struct Admitted {
    pub number: u16,
    pub spot: Spot<OpPtr, BlockPtr>,
}

impl SymbolTables {
    // The number of the symbol's name, where a table and a symbol are wanted.
    pub(crate) fn wanted(&self, table: OpPtr, op: OpPtr) -> Result<u16, Refusal>
        ensures { Wants (nodes self.now) table op result }
    {
        if !self.forest.is_live(table) || !self.forest.is_live(op) {
            return Err(Refusal::Dangling);
        }
        if !self.forest.is_table(table) {
            return Err(Refusal::NotATable);
        }
        self.name_number(op).ok_or(Refusal::NotASymbol)
    }

    // Whether the operation has a parent operation other than this table.
    fn has_other_parent(&self, table: OpPtr, op: OpPtr) -> bool
        ensures { MatchBool result (OtherParent (nodes self.now) table op) (OtherParent (nodes self.now) table op → ⊥) }
    {
        let Some(parent) = self.parent_op(op) else {
            return false;
        };
        parent != table
    }

    // The spot where the symbol goes in the table's body: where the point says, or without a point at the end.
    fn spot(
        &self,
        table: OpPtr,
        point: Option<OpInsertionPoint>,
    ) -> Result<Spot<OpPtr, BlockPtr>, Refusal>
        requires { is_table (nodes self.now) table ≡ true }
        ensures { SpotFound (nodes self.now) table point result }
    {
        let Some(point) = point else {
            return Ok(self.end_spot(self.body(table).unwrap()));
        };
        let spot = point_spot(point).ok_or(Refusal::InvalidInsertionPoint)?;
        let block = self.block_at(spot).ok_or(Refusal::InvalidInsertionPoint)?;
        if self.body(table) != Some(block) {
            return Err(Refusal::InsertionPointNotInSameTable);
        }
        Ok(spot)
    }

    // Tests the rows of an insertion, but for those of linking.
    pub(crate) fn admit(
        &self,
        table: OpPtr,
        op: OpPtr,
        point: Option<OpInsertionPoint>,
    ) -> Result<Admitted, Refusal>
        ensures { Admits (nodes self.now) table op point result }
    {
        if !self.is_point_live(point) {
            return Err(Refusal::Dangling);
        }
        let number = self.wanted(table, op)?;
        if self.lookup(table, number).is_some() {
            return Err(Refusal::SymbolRedefined);
        }
        if self.has_other_parent(table, op) {
            return Err(Refusal::SymbolOpAlreadyInAnotherTable);
        }
        let spot = self.spot(table, point)?;
        Ok(Admitted { number, spot })
    }
}
