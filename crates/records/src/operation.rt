// The record of an operation, and how its handle names it.
ghost use Rattle.std.specs.Prelude.{◌≡◌};
ghost use Rattle.records.specs.Makings.{new_operation};
ghost use Rattle.records.specs.Models.{op_of};

use crate::handles::{BlockPtr, OpPtr};
use crate::kind::Kind;
use crate::ptr::Ptr;
use crate::records::Records;
use crate::region_list::RegionList;
use arena::{Arena, Handle};

// `regions` are its regions, in order; `name` is its name's number, if it is a symbol.
#[derive(Clone, Copy)]
pub struct Operation {
    pub kind: Kind,
    pub name: Option<u16>,
    pub regions: RegionList,
    pub note: u32,
    pub next: Option<OpPtr>,
    pub prev: Option<OpPtr>,
    pub container: Option<BlockPtr>,
}

impl Operation {
    // A new operation: it stands in no block, and its note is 0.
    pub(crate) fn new(kind: Kind, name: Option<u16>, regions: RegionList) -> Operation
        ensures { result ≡ new_operation kind name regions }
    {
        Operation {
            kind,
            name,
            regions,
            note: 0,
            next: None,
            prev: None,
            container: None,
        }
    }
}

impl Ptr for OpPtr {
    type Record = Operation;

    ghost table = { λ m. m.operations };

    ghost handle = { λ p. p.handle };

    ghost of = { op_of };

    fn new(place: Handle) -> OpPtr {
        OpPtr { handle: place }
    }

    fn handle(self) -> Handle {
        self.handle
    }

    fn table(records: &Records) -> &Arena<Operation> {
        &records.operations
    }
}
