// The mappings held: a map from each name in a table to an operation.
ghost use Rattle.std.specs.Prelude.{◌≡◌, vec_len};
ghost use Rattle.table.specs.Maps.{Probed};
ghost use Rattle.mappings.specs.Hashing.{name_in_hash};

use super::name_in::NameIn;
use records::OpPtr;
use table::Entry;

// At most 512 mappings. No call but `new` takes memory, since the map has room for all of them.
// Kept: the entries of the map stand here, since by a rule of the project a map is lent its entries at each call.
#[derive(Drop)]
pub struct Mappings {
    pub(crate) entries: Vec<Entry<NameIn, OpPtr>>,
    ghost long: { vec_len entries ≡ 512 },
    ghost probed: { ∥ Probed name_in_hash entries.items ∥₁ },
}
