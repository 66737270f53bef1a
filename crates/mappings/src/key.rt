// Names in tables as keys of a map.
ghost use Rattle.std.specs.Prelude.{◌≡◌};
ghost use Rattle.mappings.specs.Hashing.{mixed, name_in_hash};

use super::name_in::NameIn;
use table::Key;

impl Key for NameIn {
    ghost hashes = { name_in_hash };

    #[tactic(auto, using(crate::proofs::Keys::told_apart))]
    fn same(&self, other: &NameIn) -> bool {
        self == other
    }

    // Place, version and name, mixed one after another; the lower half of the last product is left out, since its bits are mixed least.
    fn hash(&self) -> usize {
        let table = self.table.handle;
        mix(
            mix(mix(0, table.place), table.version as usize),
            self.name as usize,
        ) >> 32
    }
}

// One number more in a hash. The factor is the golden ratio of 64 bits, which spreads numbers in a row.
fn mix(hash: usize, number: usize) -> usize
    ensures { result ≡ mixed hash number }
{
    (hash ^ number).wrapping_mul(11400714819323198485)
}
