// Building the tables of records, and reading and noting what stands in them.
ghost use Rattle.std.specs.Prelude.{◌≡◌, true, IfOk};
ghost use Rattle.arena.specs.Pools.{live, room};
ghost use Rattle.arena.specs.Shelves.{at};
ghost use Rattle.records.specs.Models.{Untouched, tables};
ghost use Rattle.records.specs.Notes.{NotedIn};

use crate::basic_block::BasicBlock;
use crate::handles::{NOWHERE, OpPtr};
use crate::kind::Kind;
use crate::operation::Operation;
use crate::ptr::Ptr;
use crate::records::Records;
use crate::region::Region;
use crate::region_list::RegionList;
use arena::Arena;
use std::alloc::{AllocError, Global};

impl Records {
    // Tables in which nothing was ever made; they take all the memory that they will ever need.
    pub fn new(heap: Global) -> Result<Records, AllocError>
        ensures { IfOk result (λ f. Untouched (tables f)) }
    {
        let operation = Operation::new(Kind::default(), None, RegionList::new());
        let region = Region::new(OpPtr { handle: NOWHERE }, None, 0);
        let operations = Arena::new(heap, operation, 512)?;
        let blocks = Arena::new(heap, BasicBlock::new(None), 256)?;
        let regions = Arena::new(heap, region, 256)?;
        Ok(Records {
            operations,
            blocks,
            regions,
        })
    }

    // The record that a live handle names.
    pub fn get<P: Ptr>(&self, p: P) -> Option<P::Record>
        ensures { result ≡ at (P.table (tables self.now)) (P.handle p) }
    {
        P::table(self).get(p.handle())
    }

    // Whether the handle is live.
    pub fn is_live<P: Ptr>(&self, p: P) -> bool
        ensures { result ≡ live (P.table (tables self.now)).pool (P.handle p) }
    {
        P::table(self).is_live(p.handle())
    }

    // How many operations were ever made.
    pub fn operations_made(&self) -> u64
        ensures { result ≡ (tables self.now).operations.pool.taken }
    {
        self.operations.made()
    }

    // How many blocks can still be made.
    pub fn blocks_left(&self) -> usize
        ensures { result ≡ room (tables self.now).blocks.pool }
    {
        self.blocks.room()
    }

    // Sets the note of a live operation, lent out of its table.
    pub fn set_note(&mut self, op: OpPtr, note: u32)
        requires { live (tables self.old).operations.pool op.handle ≡ true }
        ensures { NotedIn (tables self.old) op note (tables self.new) }
    {
        self.operations.record_mut(op.handle).set_note(note);
    }
}
