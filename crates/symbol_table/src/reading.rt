// What is read of tables and of the places in their bodies.
ghost use Rattle.std.specs.Prelude.{◌≡◌};
ghost use Rattle.linked_list.specs.Edits.{spot_in, spot_live};
ghost use Rattle.records.specs.Views.{op_links};
ghost use Rattle.symbol_table.specs.Bodies.{body_in, is_terminator, name_of, parent_op};
ghost use Rattle.symbol_table.specs.Points.{end_spot, has_spot, point_spot};
ghost use Rattle.symbol_table.specs.Carried.{nodes};

use crate::op_insertion_point::OpInsertionPoint;
use crate::symbol_tables::SymbolTables;
use linked_list::Spot;
use records::{BlockPtr, OpPtr};

// The spot that a point names; a point that was not set names none.
pub(crate) fn point_spot(point: OpInsertionPoint) -> Option<Spot<OpPtr, BlockPtr>>
    ensures { result ≡ point_spot point }
{
    match point {
        OpInsertionPoint::Unset => None,
        OpInsertionPoint::AtBlockStart(block) => Some(Spot::AtFront(block)),
        OpInsertionPoint::AtBlockEnd(block) => Some(Spot::AtBack(block)),
        OpInsertionPoint::AfterOperation(op) => Some(Spot::After(op)),
        OpInsertionPoint::BeforeOperation(op) => Some(Spot::Before(op)),
    }
}

impl SymbolTables {
    // The operation in which an operation stands, through its block and its region.
    pub(crate) fn parent_op(&self, op: OpPtr) -> Option<OpPtr>
        ensures { result ≡ parent_op (nodes self.now) op }
    {
        let block = self.forest.block_of(op)?;
        let region = self.forest.region_of(block)?;
        self.forest.owner_of(region)
    }

    // The number of the operation's name, if it has one.
    pub(crate) fn name_number(&self, op: OpPtr) -> Option<u16>
        ensures { result ≡ name_of (nodes self.now) op }
    {
        self.forest.get(op)?.name
    }

    // The body of a table: the first block of its first region.
    pub(crate) fn body(&self, table: OpPtr) -> Option<BlockPtr>
        ensures { result ≡ body_in (nodes self.now) table }
    {
        let operation = self.forest.get(table)?;
        let region = operation.regions.get(0)?;
        self.forest.get(region)?.head
    }

    // The last operation of a block.
    fn last_op(&self, block: BlockPtr) -> Option<OpPtr>
        ensures { result ≡ (op_links (nodes self.now)).tail block }
    {
        self.forest.get(block)?.tail
    }

    // Whether the operation ends its block.
    fn is_terminator(&self, op: OpPtr) -> bool
        ensures { result ≡ is_terminator (nodes self.now) op }
    {
        self.forest
            .get(op)
            .is_some_and(|operation| operation.kind.terminator)
    }

    // Where a symbol goes without a point: before the last operation if that is a terminator, else at the back.
    pub(crate) fn end_spot(&self, body: BlockPtr) -> Spot<OpPtr, BlockPtr>
        ensures { result ≡ end_spot (nodes self.now) body }
    {
        let Some(last) = self.last_op(body) else {
            return Spot::AtBack(body);
        };
        if self.is_terminator(last) {
            return Spot::Before(last);
        }
        Spot::AtBack(body)
    }

    // Whether what the spot names is live.
    fn is_spot_live(&self, spot: Spot<OpPtr, BlockPtr>) -> bool
        ensures { result ≡ spot_live (op_links (nodes self.now)) spot }
    {
        match spot {
            Spot::AtFront(block) | Spot::AtBack(block) => self.forest.is_live(block),
            Spot::Before(op) | Spot::After(op) => self.forest.is_live(op),
        }
    }

    // The block in which a spot lies, or none beside an operation in no block.
    pub(crate) fn block_at(&self, spot: Spot<OpPtr, BlockPtr>) -> Option<BlockPtr>
        ensures { result ≡ spot_in (op_links (nodes self.now)) spot }
    {
        match spot {
            Spot::AtFront(block) | Spot::AtBack(block) => Some(block),
            Spot::Before(op) | Spot::After(op) => self.forest.block_of(op),
        }
    }

    // Whether what the point names is live, where there is a point and it names something.
    pub(crate) fn is_point_live(&self, point: Option<OpInsertionPoint>) -> bool
        ensures { result ≡ has_spot (op_links (nodes self.now)) point }
    {
        let Some(point) = point else {
            return true;
        };
        let Some(spot) = point_spot(point) else {
            return true;
        };
        self.is_spot_live(spot)
    }
}
