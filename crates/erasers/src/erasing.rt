// Erasing operations, regions and blocks, each after all that lies below it. The three call each other.
// Kept: that a node is live and stands in no list, and that links describe lists, are clauses and no facts of a type, since between
// two steps a node has lost children that it still names.
ghost use Rattle.std.specs.Prelude.{◌≡◌, ◌≤◌, true};
ghost use Rattle.linked_list.specs.Links.{Sound};
ghost use Rattle.records.specs.declared.ir_node.IRNode.TheVariants.{BasicBlock, Operation, Region};
ghost use Rattle.records.specs.Children.{is_live};
ghost use Rattle.records.specs.Models.{tables};
ghost use Rattle.records.specs.Views.{block_view, op_view};
ghost use Rattle.erasers.specs.Erasings.{Erased, Erasable, in_lists};

use linked_list::{LinkedList, unlink};
use records::{BlockPtr, OpPtr, Records, RegionPtr};

// Erases an operation that stands in no block: its regions, in order, and then the operation.
#[cycle(erase)]
pub fn erase_op(records: &mut Records, op: OpPtr)
    requires node { is_live (tables records.old) (Operation op) ≡ true }
    requires oplists { Sound (op_view records.old) }
    requires blocklists { Sound (block_view records.old) }
    requires ready { Erasable (tables records.old) (Operation op) }
    ensures erased { Erased (tables records.old) (Operation op) (tables records.new) }
    ensures fewer { in_lists (tables records.new) ≤ in_lists (tables records.old) }
{
    let regions = records.get(op).unwrap().regions;
    'children: for region in regions.as_slice() {
        erase_region(records, *region);
    }
    records.free_op(op);
}

// Erases a region of an operation that is being erased: its blocks, in order, and then the region.
#[cycle(erase)]
fn erase_region(records: &mut Records, region: RegionPtr)
    requires node { is_live (tables records.old) (Region region) ≡ true }
    requires oplists { Sound (op_view records.old) }
    requires blocklists { Sound (block_view records.old) }
    requires ready { Erasable (tables records.old) (Region region) }
    ensures erased { Erased (tables records.old) (Region region) (tables records.new) }
    ensures fewer { in_lists (tables records.new) ≤ in_lists (tables records.old) }
{
    'children: while let Some(block) = BlockPtr::get_head(records, region) {
        unlink(records, block);
        erase_block(records, block);
    }
    records.free_region(region);
}

// Erases a block that stands in no region: its operations, in order, and then the block.
#[cycle(erase)]
pub fn erase_block(records: &mut Records, block: BlockPtr)
    requires node { is_live (tables records.old) (BasicBlock block) ≡ true }
    requires oplists { Sound (op_view records.old) }
    requires blocklists { Sound (block_view records.old) }
    requires ready { Erasable (tables records.old) (BasicBlock block) }
    ensures erased { Erased (tables records.old) (BasicBlock block) (tables records.new) }
    ensures fewer { in_lists (tables records.new) ≤ in_lists (tables records.old) }
{
    'children: while let Some(op) = OpPtr::get_head(records, block) {
        unlink(records, op);
        erase_op(records, op);
    }
    records.free_block(block);
}
