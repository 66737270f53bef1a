// Reading operations, and setting their notes.
ghost use Rattle.std.specs.Prelude.{◌≡◌, length};
ghost use Rattle.ir.specs.Calls.{KindRead, NameRead, NoteRead, NumRegions, Reads, RegionRead, SetNoteCall};
ghost use Rattle.ir.specs.Stores.{names, nodes};

use crate::context::Context;
use identifier::Identifier;
use records::{Kind, OpPtr, Operation, RegionPtr};
use result::Refusal;

impl Context {
    // The record of a live operation.
    fn operation(&self, op: OpPtr) -> Result<Operation, Refusal>
        ensures { Reads self.now op (λ o. o) result }
    {
        self.tables.forest().get(op).ok_or(Refusal::Dangling)
    }

    // What the operation is.
    pub fn kind(&self, op: OpPtr) -> Result<Kind, Refusal>
        ensures { KindRead self.now op result }
    {
        Ok(self.operation(op)?.kind)
    }

    // The name of the operation, if it is a symbol.
    // Kept: `and_then` was tried, and what its closure answers was not proved.
    pub fn name(&self, op: OpPtr) -> Result<Option<Identifier>, Refusal>
        ensures { NameRead self.now op result }
    {
        let operation = self.operation(op)?;
        let Some(number) = operation.name else {
            return Ok(None);
        };
        Ok(self.names.name(number))
    }

    // How many regions the operation has.
    pub fn num_regions(&self, op: OpPtr) -> Result<usize, Refusal>
        ensures { NumRegions self.now op result }
    {
        Ok(self.operation(op)?.regions.len())
    }

    // The operation's region at an index, or none past its last.
    pub fn region(&self, op: OpPtr, index: usize) -> Result<Option<RegionPtr>, Refusal>
        ensures { RegionRead self.now op index result }
    {
        Ok(self.operation(op)?.regions.get(index))
    }

    // The operation's note.
    pub fn note(&self, op: OpPtr) -> Result<u32, Refusal>
        ensures { NoteRead self.now op result }
    {
        Ok(self.operation(op)?.note)
    }

    // Sets the operation's note.
    pub fn set_note(&mut self, op: OpPtr, note: u32) -> Result<(), Refusal>
        ensures { SetNoteCall self.old op note result self.new }
    {
        self.tables.set_note(op, note)
    }

    // How many operations were ever made.
    pub fn operations_made(&self) -> u64
        ensures { result ≡ (nodes self.now).operations.pool.taken }
    {
        self.tables.forest().operations_made()
    }

    // How many names are held.
    pub fn names_held(&self) -> usize
        ensures { result ≡ length (names self.now) }
    {
        self.names.count()
    }
}
