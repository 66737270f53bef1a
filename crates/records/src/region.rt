// The record of a region, and how its handle names it.
ghost use Rattle.std.specs.Prelude.{◌≡◌};
ghost use Rattle.records.specs.Makings.{new_region};
ghost use Rattle.records.specs.Models.{region_of};

use crate::handles::{BlockPtr, OpPtr, RegionPtr};
use crate::ptr::Ptr;
use crate::records::Records;
use arena::{Arena, Handle};

// The `index`-th region of `parent_op`, for good; its blocks run from `head` to `tail`.
#[derive(Clone, Copy)]
pub struct Region {
    pub parent_op: OpPtr,
    pub index: usize,
    pub head: Option<BlockPtr>,
    pub tail: Option<BlockPtr>,
}

impl Region {
    // The index-th region of an operation, with this one block or with none.
    pub(crate) fn new(parent_op: OpPtr, body: Option<BlockPtr>, index: usize) -> Region
        ensures { result ≡ new_region parent_op body index }
    {
        Region {
            parent_op,
            index,
            head: body,
            tail: body,
        }
    }
}

impl Ptr for RegionPtr {
    type Record = Region;

    ghost table = { λ m. m.regions };

    ghost handle = { λ p. p.handle };

    ghost of = { region_of };

    fn new(place: Handle) -> RegionPtr {
        RegionPtr { handle: place }
    }

    fn handle(self) -> Handle {
        self.handle
    }

    fn table(records: &Records) -> &Arena<Region> {
        &records.regions
    }
}
