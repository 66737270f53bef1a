// The regions of one operation, held inline.
ghost use Rattle.std.specs.Prelude.{◌≡◌, ◌<◌, ◌≤◌, List, [], ◌∷◌, ◌++◌, length, Decides};
ghost use Rattle.arena.specs.Shelves.{item};
ghost use Rattle.records.specs.declared.handles.RegionPtr.{RegionPtr};

use crate::handles::{NOWHERE, RegionPtr};
use std::marker::Model;

// At most four regions, in order: the first `len` of `places`.
// Kept: a length beside the places, held inline, since by a rule of the project a record has a fixed size and is copied whole; the kit's
// `ArrayVec` is of a fixed size too, and is not `Copy`.
#[derive(Clone, Copy, PartialEq, Eq)]
pub struct RegionList {
    len: usize,
    places: [RegionPtr; 4],
}

impl Model for RegionList {
    ghost use Rattle.std.specs.Prelude.{◌≡◌, ◌≤◌, List, length, take};
    ghost use Rattle.std.proofs.Common.{arith, length-take-le};
    ghost use Rattle.records.specs.declared.handles.RegionPtr.{RegionPtr};
    ghost use Rattle.records.specs.Padding.{padded};

    ghost Value = { List RegionPtr };

    ghost view = { λ r. take r.len r.places };

    ghost invariant = { λ r. (r.len ≤ 4) × (length r.places ≡ 4) × (padded (take r.len r.places) ≡ r.places) };

    ghost inverse = { λ xs. record { len = length xs; places = padded xs } };

    ghost inverse_ok = { λ r h i. record { len = length-take-le r.len r.places (omega (arith, h.0, h.1)) i; places = h.2 i } };
}

impl RegionList {
    // No regions.
    pub(crate) fn new() -> RegionList
        ensures { result ≡ [] }
    {
        RegionList {
            len: 0,
            places: [RegionPtr { handle: NOWHERE }; 4],
        }
    }

    // Puts a region after the others, where they are fewer than four.
    pub(crate) fn push(&mut self, region: RegionPtr)
        requires { length self.old < 4 }
        ensures { self.new ≡ self.old ++ region ∷ [] }
    {
        self.places[self.len] = region;
        self.len += 1;
    }

    // How many there are.
    pub fn len(&self) -> usize
        ensures len { result ≡ length self.now }
        ensures few { result ≤ 4 }
    {
        self.as_slice().len()
    }

    // The region at an index, or none past the last.
    pub fn get(&self, index: usize) -> Option<RegionPtr>
        ensures { result ≡ item self.now index }
    {
        self.as_slice().get(index).copied()
    }

    // All of them, in order.
    pub fn as_slice(&self) -> &[RegionPtr]
        ensures all { result.now ≡ self.now }
        ensures few { length self.now ≤ 4 }
    {
        &self.places[..self.len]
    }
}

// What `==` answers tells whether two lists are one.
pub fn regions_eq_decides()
    ensures { (a b : List RegionPtr) → Decides (⟦<RegionList as PartialEq>⟧.eq a b) (a ≡ b) }
{}
