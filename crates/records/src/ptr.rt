// What the three kinds of handle have in common: each names the records of one table.
ghost use Rattle.std.specs.Prelude.{◌≡◌};
ghost use Rattle.arena.specs.declared.handle.Handle.{Handle as Place};
ghost use Rattle.arena.specs.Recorded.{shelf};
ghost use Rattle.arena.specs.Shelves.{Shelf};
ghost use Rattle.records.specs.Models.{Model, tables};

use crate::records::Records;
use arena::{Arena, Handle};

// A kind of handle: a place and version, as one of an operation, of a block or of a region.
pub trait Ptr: Copy + Eq {
    type Record: Copy;

    // the table in which its records stand
    ghost table: { Model → Shelf Self.Record };

    // the place and version
    ghost handle: { Self → Place };

    // the handle of this kind with a place and version
    ghost of: { Place → Self };

    fn new(place: Handle) -> Self
        ensures { result ≡ of place };

    fn handle(self) -> Handle
        ensures { result ≡ handle self };

    fn table(records: &Records) -> &Arena<Self::Record>
        ensures { shelf result.now ≡ table (tables records.now) };
}
