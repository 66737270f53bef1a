// How a pair is compared and hashed, and where fresh pairs come from.
ghost use Rattle.std.specs.Prelude.{◌≡◌, ◌+◌, ◌*◌, ◌%◌, ◌^◌};
ghost use Rattle.bench_table.specs.Hashes.{pair_hash};

use super::pair::Pair;
use table::Key;

impl Key for Pair {
    ghost hashes = { pair_hash };

    fn same(&self, other: &Pair) -> bool {
        self == other
    }

    fn hash(&self) -> usize {
        let x = self.table.wrapping_mul(2654435761) ^ self.name;
        let y = (x ^ (x >> 16)).wrapping_mul(2246822507);
        (y ^ (y >> 13)) as usize
    }
}

// Numbers that look random, and pairs of which none comes twice: each has the next name.
#[derive(Drop)]
pub struct Source {
    pub state: u32,
    pub name: u32,
}

impl Source {
    // The next number of a linear congruence.
    pub fn number(&mut self) -> u32
        ensures moves { self.new.state ≡ (self.old.state * 1664525 + 1013904223) % 2 ^ 32 }
        ensures keeps { self.new.name ≡ self.old.name }
    {
        self.state = self.state.wrapping_mul(1664525).wrapping_add(1013904223);
        self.state >> 8
    }

    // A pair with a name that no pair before it had.
    pub fn pair(&mut self) -> Pair
        ensures { (result.name ≡ (self.old.name + 1) % 2 ^ 32) × (self.new.name ≡ result.name) }
    {
        let table = self.number() % 64;
        self.name = self.name.wrapping_add(1);
        Pair {
            table,
            name: self.name,
        }
    }
}
