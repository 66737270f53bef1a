// Building a store, and making operations and blocks in it.
ghost use Rattle.std.specs.Prelude.{◌≡◌, IfOk, MatchBool, is_some};
ghost use Rattle.records.specs.Makings.{Roomy};
ghost use Rattle.names.specs.Held.{held};
ghost use Rattle.ir.specs.Calls.{MakeBlockCall, MakeOperationCall};
ghost use Rattle.ir.specs.Steps.{Admits, AdmittedMade, Full, NumberGiven, Optional};
ghost use Rattle.ir.specs.Stores.{Built, names, nodes};

use crate::context::Context;
use identifier::Identifier;
use names::Names;
use records::{BlockPtr, MadeOperation, Shape};
use result::Refusal;
use std::alloc::{AllocError, Global};
use symbol_table::SymbolTables;

// What a making that no row refuses makes.
#[derive(Clone, Copy)]
pub struct Admitted {
    pub(crate) shape: Shape,
    pub(crate) name: Option<Identifier>,
}

// The identifier of the name given, or none where no name is given.
fn optional_name(name: &[u8]) -> Result<Option<Identifier>, Refusal>
    ensures { Optional name.now result }
{
    if name.is_empty() {
        return Ok(None);
    }
    Ok(Some(Identifier::try_new(name)?))
}

// The number of the name, if there is one; it is held from now on.
fn hold_name(names: &mut Names, name: Option<Identifier>) -> Option<u16>
    requires { Full (held names.old) name → ⊥ }
    ensures { NumberGiven (held names.old) name result (held names.new) }
{
    names.hold(name?)
}

impl Context {
    // A store in which nothing was made; it takes all the memory that it will ever need.
    pub fn new(heap: Global) -> Result<Context, AllocError>
        ensures { IfOk result (λ s. Built s) }
    {
        let tables = SymbolTables::new(heap)?;
        let names = Names::new(heap)?;
        Ok(Context { tables, names })
    }

    // Makes a block that stands in no region.
    pub fn make_block(&mut self) -> Result<BlockPtr, Refusal>
        ensures { MakeBlockCall self.old result self.new }
    {
        self.tables.make_block()
    }

    // Whether the name, if there is one, is held or can be.
    // Kept: `is_none_or` was tried, and what its closure answers was not proved.
    fn can_hold(&self, name: Option<Identifier>) -> bool
        ensures { MatchBool result (Full (names self.now) name → ⊥) (Full (names self.now) name) }
    {
        let Some(identifier) = name else {
            return true;
        };
        self.names.count() < 256 || self.names.find(identifier).is_some()
    }

    // Tests the rows of a making, in their order; nothing changes.
    // Kept: the kind is a sum in a byte, a rule of the project, since a sum above 7 is refused as a bad shape.
    fn admit(&self, kind: u8, regions: u8, name: &[u8]) -> Result<Admitted, Refusal>
        ensures { Admits self.now kind regions name.now result }
    {
        let shape = Shape::new(kind, regions, !name.is_empty()).ok_or(Refusal::BadShape)?;
        let identifier = optional_name(name)?;
        if !self.can_hold(identifier) {
            return Err(Refusal::NamesFull);
        }
        if !self.tables.forest().has_room(shape) {
            return Err(Refusal::RecordsFull);
        }
        Ok(Admitted {
            shape,
            name: identifier,
        })
    }

    // Holds the name, if there is one, and makes the operation.
    fn make_admitted(&mut self, admitted: Admitted) -> MadeOperation
        requires holds { Full (names self.old) admitted.name → ⊥ }
        requires named { admitted.shape.kind.symbol ≡ is_some admitted.name }
        requires roomy { Roomy admitted.shape.kind admitted.shape.count (nodes self.old) }
        ensures { AdmittedMade self.old admitted result self.new }
    {
        let number = hold_name(&mut self.names, admitted.name);
        self.tables.make_operation(admitted.shape, number).unwrap()
    }

    // Makes an operation of this kind (a sum of 1 for a table, 2 for a symbol and 4 for a terminator) with so many regions
    // and this name; a name of no bytes is no name.
    // Kept: the kind is a sum in a byte, a rule of the project, since a sum above 7 is refused as a bad shape.
    pub fn make_operation(
        &mut self,
        kind: u8,
        regions: u8,
        name: &[u8],
    ) -> Result<MadeOperation, Refusal>
        ensures { MakeOperationCall self.old kind regions name.now result self.new }
    {
        let admitted = self.admit(kind, regions, name)?;
        Ok(self.make_admitted(admitted))
    }
}
