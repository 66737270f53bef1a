// Holding names and finding them.
ghost use Rattle.std.specs.Prelude.{◌≡◌, ◌<◌, ◌≤◌, [], ◌∷◌, ◌++◌, length, IfOk};
ghost use Rattle.identifier.specs.Identifiers.{text};
ghost use Rattle.names.specs.Places.{Absent};
ghost use Rattle.names.specs.Held.{held, Finds, Holds, Reads, OneNumber};

use super::names::Names;
use identifier::Identifier;
use std::alloc::{AllocError, Global};
use table::{get, insert};

// The most names that can be held.
const MOST: usize = 256;

impl Names {
    // No name is held. All memory is taken here.
    pub fn new(heap: Global) -> Result<Names, AllocError>
        ensures { IfOk result (λ s. held s ≡ []) }
    {
        let list = Vec::with_capacity(heap, MOST)?;
        let entries = vec![in heap; None; MOST]?;
        Ok(Names { list, entries })
    }

    // The number of a name, if it is held.
    pub fn find(&self, name: Identifier) -> Option<u16>
        ensures { Finds self.now name result }
    {
        get(&self.entries, name)
    }

    // The number of a name, which is held from now on if it was not; or none for a new name where no more can be held.
    // Kept: early returns, which say the two ways out in order; a chain of closures that borrow the names is no plainer.
    pub fn hold(&mut self, name: Identifier) -> Option<u16>
        ensures { Holds self.old name result self.new }
    {
        if let Some(number) = self.find(name) {
            return Some(number);
        }
        if self.count() == MOST {
            return None;
        }
        Some(self.add(name))
    }

    // The name that has this number.
    pub fn name(&self, number: u16) -> Option<Identifier>
        ensures { Reads self.now number result }
    {
        self.list.get(number as usize).copied()
    }

    // How many names are held.
    pub fn count(&self) -> usize
        ensures value { result ≡ length (held self.now) }
        ensures most { result ≤ 256 }
    {
        self.list.len()
    }

    // Adds a new name after those held, and answers its number, the next.
    fn add(&mut self, name: Identifier) -> u16
        requires new { Absent (held self.old) (text name) }
        requires room { length (held self.old) < 256 }
        ensures number { result ≡ length (held self.old) }
        ensures list { held self.new ≡ held self.old ++ text name ∷ [] }
    {
        let number = self.list.len() as u16;
        self.list.push_reserved(name);
        // An entry is free, since no more are used than names are held.
        let _ = insert(&mut self.entries, name, number);
        number
    }
}

// A name has one number, and at most 256 names are held.
pub fn numbers_are_one()
    ensures { OneNumber }
{}
