// Building the store, making nodes in it, and reading and noting operations.
ghost use Rattle.std.specs.Prelude.{◌≡◌, IfOk, MatchBool};
ghost use Rattle.arena.specs.Pools.{live};
ghost use Rattle.arena.specs.Shelves.{at};
ghost use Rattle.forest.specs.Calls.{Fresh, MakesBlock, MakesOperation, Notes};
ghost use Rattle.forest.specs.Forests.{model};
ghost use Rattle.records.specs.Makings.{Roomy};

use crate::forest::Forest;
use records::{BlockPtr, MadeOperation, OpPtr, Ptr, Records, Shape};
use result::Refusal;
use std::alloc::{AllocError, Global};

impl Forest {
    // A store in which nothing was ever made; it takes all the memory that it will ever need.
    pub fn new(heap: Global) -> Result<Forest, AllocError>
        ensures { IfOk result (λ f. Fresh f) }
    {
        let records = Records::new(heap)?;
        Ok(Forest { records })
    }

    // The record that a live handle names.
    pub fn get<P: Ptr>(&self, p: P) -> Option<P::Record>
        ensures { result ≡ at (P.table (model self.now)) (P.handle p) }
    {
        self.records.get(p)
    }

    // Whether the handle is live.
    pub fn is_live<P: Ptr>(&self, p: P) -> bool
        ensures { result ≡ live (P.table (model self.now)).pool (P.handle p) }
    {
        self.records.is_live(p)
    }

    // How many operations were ever made.
    pub fn operations_made(&self) -> u64
        ensures { result ≡ (model self.now).operations.pool.taken }
    {
        self.records.operations_made()
    }

    // Whether enough records are free for an operation of this shape.
    pub fn has_room(&self, shape: Shape) -> bool
        ensures { MatchBool result (Roomy shape.kind shape.count (model self.now)) (Roomy shape.kind shape.count (model self.now) → ⊥) }
    {
        self.records.has_room(shape)
    }

    // Makes an operation with its regions and, for a table, its body.
    pub fn make_operation(
        &mut self,
        shape: Shape,
        name: Option<u16>,
    ) -> Result<MadeOperation, Refusal>
        ensures { MakesOperation self.old shape name result self.new }
    {
        if !self.has_room(shape) {
            return Err(Refusal::RecordsFull);
        }
        Ok(self.records.make_operation(shape, name))
    }

    // Makes a block that stands in no region.
    pub fn make_block(&mut self) -> Result<BlockPtr, Refusal>
        ensures { MakesBlock self.old result self.new }
    {
        if self.records.blocks_left() == 0 {
            return Err(Refusal::RecordsFull);
        }
        Ok(self.records.make_block())
    }

    // Sets the note of a live operation.
    pub fn set_note(&mut self, op: OpPtr, note: u32) -> Result<(), Refusal>
        ensures { Notes self.old op note result self.new }
    {
        if !self.records.is_live(op) {
            return Err(Refusal::Dangling);
        }
        self.records.set_note(op, note);
        Ok(())
    }
}
