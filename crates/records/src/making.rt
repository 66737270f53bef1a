// Making operations with their regions and bodies, and blocks.
ghost use Rattle.std.specs.Prelude.{◌≡◌, ◌<◌, ◌≤◌, if◌then◌else◌, Some, None, MatchBool};
ghost use Rattle.arena.specs.Pools.{next, room};
ghost use Rattle.arena.specs.Recorded.{shelf};
ghost use Rattle.arena.specs.Shelves.{entered};
ghost use Rattle.records.specs.Makings.{Roomy, blocks_needed, new_block, operation_made, region_ptrs, with_block, with_operation, with_regions};
ghost use Rattle.records.specs.Models.{block_of, next_block, tables};

use crate::basic_block::BasicBlock;
use crate::handles::{BlockPtr, OpPtr, RegionPtr};
use crate::operation::Operation;
use crate::ptr::Ptr;
use crate::records::Records;
use crate::region::Region;
use crate::region_list::RegionList;
use crate::shape::Shape;
use arena::Arena;

// All nodes that the making of an operation made: the operation, its regions in order, and a table's body.
#[derive(Clone, Copy)]
pub struct MadeOperation {
    pub operation: OpPtr,
    pub regions: RegionList,
    pub body: Option<BlockPtr>,
}

// Makes one record where one is free.
fn make<P: Ptr>(table: &mut Arena<P::Record>, x: P::Record) -> P
    requires { 0 < room (shelf table.old).pool }
    ensures given { result ≡ P.of (next (shelf table.old).pool) }
    ensures after { shelf table.new ≡ entered x (shelf table.old) }
{
    P::new(table.make(x).unwrap())
}

// The handle that the next making gives, where a record is free.
fn next<P: Ptr>(table: &Arena<P::Record>) -> Option<P>
    ensures { 0 < room (shelf table.now).pool → result ≡ Some (P.of (next (shelf table.now).pool)) }
{
    table.next().map(|handle| P::new(handle))
}

// Makes the regions of one operation, in order.
#[tactic(auto, using(crate::proofs::Regions::ptrs_long, crate::proofs::Regions::ptrs_none, crate::proofs::Regions::ptrs_step, crate::proofs::Regions::regions_none, crate::proofs::Regions::regions_step, crate::proofs::Regions::room_after))]
fn make_regions(
    table: &mut Arena<Region>,
    parent_op: OpPtr,
    body: Option<BlockPtr>,
    shape: Shape,
) -> RegionList
    requires { shape.count ≤ room (shelf table.old).pool }
    ensures given { result ≡ region_ptrs parent_op body shape.count (shelf table.old) }
    ensures after { shelf table.new ≡ with_regions parent_op body shape.count (shelf table.old) }
{
    let mut regions = RegionList::new();
    'each: for i in 0..shape.count {
        regions.push(make(table, Region::new(parent_op, body, i)));
    }
    regions
}

// Makes the body of a table, in this region; what is no table has none.
fn make_body(
    table: &mut Arena<BasicBlock>,
    wanted: bool,
    container: Option<RegionPtr>,
) -> Option<BlockPtr>
    requires { blocks_needed wanted ≤ room (shelf table.old).pool }
    ensures given { result ≡ (if wanted then Some (block_of (next (shelf table.old).pool)) else None) }
    ensures after { shelf table.new ≡ (if wanted then entered (new_block container) (shelf table.old) else shelf table.old) }
{
    // Kept: `then` was tried, and what its closure leaves of the table was not proved.
    if wanted {
        Some(make(table, BasicBlock::new(container)))
    } else {
        None
    }
}

impl Records {
    // Whether enough records are free for an operation of this shape, with its regions and its body.
    pub fn has_room(&self, shape: Shape) -> bool
        ensures { MatchBool result (Roomy shape.kind shape.count (tables self.now)) (Roomy shape.kind shape.count (tables self.now) → ⊥) }
    {
        if self.operations.room() < 1 || self.regions.room() < shape.count {
            return false;
        }
        !shape.kind.table || self.blocks.room() >= 1
    }

    // Makes an operation with its regions and, for a table, its body, each record whole at once, where enough are free.
    pub fn make_operation(&mut self, shape: Shape, name: Option<u16>) -> MadeOperation
        requires { Roomy shape.kind shape.count (tables self.old) }
        ensures answer { result ≡ operation_made shape.kind shape.count (tables self.old) }
        ensures after { tables self.new ≡ with_operation shape.kind name shape.count (tables self.old) }
    {
        let operation = next(&self.operations).unwrap();
        let region = next(&self.regions);
        let body = make_body(&mut self.blocks, shape.kind.table, region);
        let regions = make_regions(&mut self.regions, operation, body, shape);
        let whole = Operation::new(shape.kind, name, regions);
        let _: OpPtr = make(&mut self.operations, whole);
        MadeOperation {
            operation,
            regions,
            body,
        }
    }

    // Makes a block that stands in no region, where one is free.
    pub fn make_block(&mut self) -> BlockPtr
        requires { 0 < room (tables self.old).blocks.pool }
        ensures given { result ≡ next_block (tables self.old) }
        ensures after { tables self.new ≡ with_block (tables self.old) }
    {
        make(&mut self.blocks, BasicBlock::new(None))
    }
}
