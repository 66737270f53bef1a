// The record of a block, and how its handle names it.
ghost use Rattle.std.specs.Prelude.{◌≡◌};
ghost use Rattle.records.specs.Makings.{new_block};
ghost use Rattle.records.specs.Models.{block_of};

use crate::handles::{BlockPtr, OpPtr, RegionPtr};
use crate::ptr::Ptr;
use crate::records::Records;
use arena::{Arena, Handle};

// A block's operations run from `head` to `tail`; it may stand in a region, between `prev` and `next`.
#[derive(Clone, Copy)]
pub struct BasicBlock {
    pub head: Option<OpPtr>,
    pub tail: Option<OpPtr>,
    pub next: Option<BlockPtr>,
    pub prev: Option<BlockPtr>,
    pub container: Option<RegionPtr>,
}

impl BasicBlock {
    // A block with no operations, in no region or in this one alone.
    pub(crate) fn new(container: Option<RegionPtr>) -> BasicBlock
        ensures { result ≡ new_block container }
    {
        BasicBlock {
            head: None,
            tail: None,
            next: None,
            prev: None,
            container,
        }
    }
}

impl Ptr for BlockPtr {
    type Record = BasicBlock;

    ghost table = { λ m. m.blocks };

    ghost handle = { λ p. p.handle };

    ghost of = { block_of };

    fn new(place: Handle) -> BlockPtr {
        BlockPtr { handle: place }
    }

    fn handle(self) -> Handle {
        self.handle
    }

    fn table(records: &Records) -> &Arena<BasicBlock> {
        &records.blocks
    }
}
