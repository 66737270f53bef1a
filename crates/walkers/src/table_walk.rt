// Walks of symbol tables, for a visitor that reads the store.
ghost use Rattle.std.specs.Prelude.{[], ◌∷◌, ◌≡◌, MatchOption, Some, false, true};
ghost use Rattle.std.specs.Option.{option_map};
ghost use Rattle.records.specs.Models.{operation_at};
ghost use Rattle.records.specs.Nodes.{is_table, regions_of};
ghost use Rattle.ir.specs.Stores.{nodes};
ghost use Rattle.walkers.specs.TableWalks.{TableWalkCall};

use crate::config::WALKCONFIG_PREORDER_FORWARD;
use crate::driving::drive;
use crate::operations_only::OperationsOnly;
use crate::visitor::Visitor;
use ir::Context;
use records::{IRNode, OpPtr, RegionPtr};
use result::Refusal;

// The one region of a table; none of what is no table.
fn table_region(context: &Context, table: OpPtr) -> Option<RegionPtr>
    ensures { MatchOption result
        (is_table (nodes context.now) table ≡ false)
        (λ region. (is_table (nodes context.now) table ≡ true) × (option_map regions_of (operation_at (nodes context.now) table) ≡ Some (region ∷ []))) }
{
    let operation = context.get(table)?;
    if !operation.kind.table {
        return None;
    }
    operation.regions.get(0)
}

// Walks what stands in a table: each operation in the table's region that is no table is shown, a node before what lies below it, from
// the first to the last. A nested table is skipped unseen with all that lies below it.
pub fn walk_symbol_table<V: Visitor>(
    context: &Context,
    table: OpPtr,
    visitor: &mut OperationsOnly<V>,
) -> Result<(), Refusal>
where
    V::Break: Drop,
    ensures { TableWalkCall V.answer V.next context.now table visitor.old result visitor.new }
{
    if !context.is_live(table) {
        return Err(Refusal::Dangling);
    }
    let Some(region) = table_region(context, table) else {
        return Err(Refusal::NotATable);
    };
    let root = IRNode::Region(region);
    let _ = drive(context, WALKCONFIG_PREORDER_FORWARD, root, visitor);
    Ok(())
}
