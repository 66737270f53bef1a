// Mappings as a store holds them.
ghost use Rattle.std.specs.Prelude.{◌&&◌, ◌==◌};

use super::{Keeper, Mappings};
use arena::Handle;
use records::OpPtr;
use std::test::Fail;

fn op(place: usize) -> OpPtr {
    OpPtr {
        handle: Handle { place, version: 1 },
    }
}

// Keeps the names of one table.
#[derive(Drop)]
struct Only {
    table: OpPtr,
}

impl Keeper for Only {
    ghost keeps = { λ only table. (only.table.handle.place == table.handle.place) && (only.table.handle.version == table.handle.version) };

    fn is_kept(&self, table: OpPtr) -> bool {
        self.table == table
    }
}

#[test]
fn a_name_put_is_found_in_its_table_alone(rt: HostRuntime) -> Result<(), Fail> {
    let mut mappings = Mappings::new(rt.alloc())?;
    assert!(rt; mappings.put(op(0), 7, op(1))? == None);
    assert!(rt; mappings.find(op(0), 7) == Some(op(1)));
    assert!(rt; mappings.find(op(0), 8) == None);
    assert!(rt; mappings.find(op(2), 7) == None);
    assert!(rt; mappings.put(op(0), 7, op(3))? == Some(op(1)));
    assert!(rt; mappings.take(op(0), 7) == Some(op(3)));
    assert!(rt; mappings.take(op(0), 7) == None);
    assert!(rt; mappings.count() == 0);
    Ok(())
}

#[test]
fn a_table_kept_has_its_names_and_no_other_has(rt: HostRuntime) -> Result<(), Fail> {
    let mut mappings = Mappings::new(rt.alloc())?;
    for name in 0..40 {
        mappings.put(op(0), name, op(1))?;
        mappings.put(op(2), name, op(3))?;
    }
    mappings.retain(&Only { table: op(2) });
    assert!(rt; mappings.count() == 40);
    assert!(rt; mappings.find(op(0), 39) == None);
    assert!(rt; mappings.find(op(2), 39) == Some(op(3)));
    Ok(())
}

#[test]
fn a_new_name_past_512_is_refused(rt: HostRuntime) -> Result<(), Fail> {
    let mut mappings = Mappings::new(rt.alloc())?;
    for name in 0..512 {
        mappings.put(op(0), name, op(1))?;
    }
    assert!(rt; mappings.put(op(0), 512, op(1)).is_err());
    assert!(rt; mappings.put(op(0), 511, op(2))? == Some(op(1)));
    assert!(rt; mappings.count() == 512);
    Ok(())
}
