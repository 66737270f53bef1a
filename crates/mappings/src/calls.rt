// Finding, holding and taking away mappings.
ghost use Rattle.std.specs.Prelude.{◌≡◌, ◌≤◌, [], IfOk};
ghost use Rattle.mappings.specs.Held.{held, held_count, mapped};
ghost use Rattle.mappings.specs.Edits.{Puts, Retained, Taken, Unkept};

use super::keeper::Keeper;
use super::mappings::Mappings;
use super::name_in::NameIn;
use records::OpPtr;
use std::alloc::{AllocError, Global};
use table::{Full, get, insert, remove};

// The most mappings that can be held.
const MOST: usize = 512;

impl Mappings {
    // Nothing is mapped. All memory is taken here.
    pub fn new(heap: Global) -> Result<Mappings, AllocError>
        ensures { IfOk result (λ m. held m ≡ []) }
    {
        let entries = vec![in heap; None; MOST]?;
        Ok(Mappings { entries })
    }

    // The operation that the table has under the name, if it has one.
    pub fn find(&self, table: OpPtr, name: u16) -> Option<OpPtr>
        ensures { result ≡ mapped self.now table name }
    {
        get(&self.entries, NameIn { table, name })
    }

    // Gives the table this operation under the name, and answers which it had; or refuses a new name where no more can be held.
    pub fn put(&mut self, table: OpPtr, name: u16, op: OpPtr) -> Result<Option<OpPtr>, Full>
        ensures { Puts self.old table name op result self.new }
    {
        insert(&mut self.entries, NameIn { table, name }, op)
    }

    // Takes the name away from the table, and answers which operation it had.
    pub fn take(&mut self, table: OpPtr, name: u16) -> Option<OpPtr>
        ensures { Taken self.old table name result self.new }
    {
        remove(&mut self.entries, NameIn { table, name })
    }

    // Takes every name away from the tables that are not kept. Taking one away moves others, so the next is looked for from the first
    // entry on.
    pub fn retain<K: Keeper>(&mut self, keeper: &K)
        ensures { Retained (K.keeps keeper.now) self.old self.new }
    {
        'names: while let Some(key) = self.unkept(keeper) {
            let _ = self.take(key.table, key.name);
        }
    }

    // How many mappings are held.
    pub fn count(&self) -> usize
        ensures value { result ≡ held_count self.now }
        ensures most { result ≤ 512 }
    {
        let mut count = 0;
        for entry in &self.entries {
            if entry.is_some() {
                count += 1;
            }
        }
        count
    }

    // One of the names of the tables that are not kept, if they have any.
    fn unkept<K: Keeper>(&self, keeper: &K) -> Option<NameIn>
        ensures { Unkept (K.keeps keeper.now) self.now result }
    {
        for entry in &self.entries {
            let Some((key, _)) = *entry else { continue };
            if !keeper.is_kept(key.table) {
                return Some(key);
            }
        }
        None
    }
}
