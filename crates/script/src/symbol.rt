// What a field that puts a symbol into a table or takes one out asks for: its value's parts, as numbers and as handles.
ghost use Rattle.std.specs.Prelude.{◌≡◌, ◌<◌, MatchResult, slice_index};
ghost use Rattle.std.specs.Option.{ok_or};
ghost use Rattle.result.specs.declared.refusal.Refusal.TheVariants.{BadField, BadOrdinal};
ghost use Rattle.script.specs.Fields.{number_at};
ghost use Rattle.script.specs.Symbols.{NoInsert, NoPair, insert_given, pair_given, point_given};

use crate::state::State;
use ir::{OpInsertionPoint, OpPtr};
use result::Refusal;

// A table and an operation: by their numbers.
#[derive(Clone, Copy, Drop)]
pub(crate) struct Pair {
    table: u16,
    op: u16,
}

impl Pair {
    // The parts of a value: the table's number, and the operation's.
    pub(crate) fn read(value: &[u8]) -> Result<Pair, Refusal>
        ensures { MatchResult result
            (λ p. (NoPair value.now → ⊥) × (p.table ≡ number_at value.now 0) × (p.op ≡ number_at value.now 2))
            (λ e. NoPair value.now × (e ≡ BadField)) }
    {
        let [table_high, table_low, op_high, op_low] = value else {
            return Err(Refusal::BadField);
        };
        Ok(Pair {
            table: u16::from_be_bytes([*table_high, *table_low]),
            op: u16::from_be_bytes([*op_high, *op_low]),
        })
    }

    // The operations that have these numbers.
    pub(crate) fn find(self, state: &State) -> Result<(OpPtr, OpPtr), Refusal>
        ensures { result ≡ ok_or (pair_given state.now self.table self.op) BadOrdinal }
    {
        let table = state.operations.get(self.table)?;
        let op = state.operations.get(self.op)?;
        Ok((table, op))
    }
}

// A table, an operation, and the point to put it at: by their numbers.
#[derive(Clone, Copy, Drop)]
pub(crate) struct Insertion {
    pair: Pair,
    how: u8,
    node: u16,
    ghost known: { how < 6 },
}

impl Insertion {
    // The parts of a value: the table's number, the operation's, a byte for the point, and the number of the point's node.
    pub(crate) fn read(value: &[u8]) -> Result<Insertion, Refusal>
        ensures { MatchResult result
            (λ i. (NoInsert value.now → ⊥) × (i.pair.table ≡ number_at value.now 0) × (i.pair.op ≡ number_at value.now 2) × (i.how ≡ slice_index value.now 4) × (i.node ≡ number_at value.now 5))
            (λ e. NoInsert value.now × (e ≡ BadField)) }
    {
        let [
            table_high,
            table_low,
            op_high,
            op_low,
            how,
            node_high,
            node_low,
        ] = value
        else {
            return Err(Refusal::BadField);
        };
        if *how > 5 {
            return Err(Refusal::BadField);
        }
        Ok(Insertion {
            pair: Pair {
                table: u16::from_be_bytes([*table_high, *table_low]),
                op: u16::from_be_bytes([*op_high, *op_low]),
            },
            how: *how,
            node: u16::from_be_bytes([*node_high, *node_low]),
        })
    }

    // The operations and the point that have these numbers.
    pub(crate) fn find(
        self,
        state: &State,
    ) -> Result<((OpPtr, OpPtr), Option<OpInsertionPoint>), Refusal>
        ensures { result ≡ ok_or (insert_given state.now self.pair.table self.pair.op self.how self.node) BadOrdinal }
    {
        let pair = self.pair.find(state)?;
        let point = state.point(self.how, self.node)?;
        Ok((pair, point))
    }
}

impl State {
    // The point of a byte, at the node that has a number. Without a point, and at one that was not set, the number is not read.
    fn point(&self, how: u8, node: u16) -> Result<Option<OpInsertionPoint>, Refusal>
        requires { how < 6 }
        ensures { result ≡ ok_or (point_given self.now how node) BadOrdinal }
    {
        Ok(match how {
            0 => None,
            1 => Some(OpInsertionPoint::Unset),
            2 => Some(OpInsertionPoint::AtBlockStart(self.blocks.get(node)?)),
            3 => Some(OpInsertionPoint::AtBlockEnd(self.blocks.get(node)?)),
            4 => Some(OpInsertionPoint::AfterOperation(self.operations.get(node)?)),
            _ => Some(OpInsertionPoint::BeforeOperation(self.operations.get(node)?)),
        })
    }
}
