// Identifiers as keys of a map, and what their equality tells.
ghost use Rattle.std.specs.Prelude.{◌≡◌, Decides, nat_eq};
ghost use Rattle.std.specs.Cmp.Lexicographic.{pointwise};
ghost use Rattle.std.specs.Ordering.{on};
ghost use Rattle.identifier.specs.declared.identifier.Identifier.{Identifier};
ghost use Rattle.identifier.specs.Identifiers.{EqDecides, identifier_hash, text};

use super::identifier::Identifier;
use table::Key;

impl Key for Identifier {
    ghost hashes = { identifier_hash };

    #[tactic(auto, using(crate::proofs::Keys::told_apart))]
    fn same(&self, other: &Identifier) -> bool {
        self == other
    }

    // FNV-1a, in 32 bits.
    fn hash(&self) -> usize {
        let mut h: u32 = 2166136261;
        for b in self.as_bytes() {
            h = (h ^ (*b as u32)).wrapping_mul(16777619);
        }
        h as usize
    }
}

// What `==` answers tells whether two identifiers are one: it answers whether their bytes are equal.
pub fn eq_decides()
    ensures decides { (a b : Identifier) → Decides (⟦<Identifier as PartialEq>⟧.eq a b) (a ≡ b) }
    ensures texts { (a b : Identifier) → ⟦<Identifier as PartialEq>⟧.eq a b ≡ on text (pointwise nat_eq) a b }
    ensures of_texts { EqDecides }
{}
