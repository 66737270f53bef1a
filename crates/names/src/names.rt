// The names held: a list in the order of their numbers, and a map from each to its number.
ghost use Rattle.std.specs.Prelude.{◌≡◌, ◌≤◌, vec_len, vec_capacity};
ghost use Rattle.names.specs.Numbering.{Numbered};

use identifier::Identifier;
use table::Entry;

// At most 256 names. No call but `new` takes memory, since the list and the map have room for all of them.
// Kept: the entries of the map stand here, beside the list of the names, since by a rule of the project a map is lent its entries at
// each call.
#[derive(Drop)]
pub struct Names {
    pub(crate) list: Vec<Identifier>,
    pub(crate) entries: Vec<Entry<Identifier, u16>>,
    ghost room: { 256 ≤ vec_capacity list },
    ghost few: { vec_len list ≤ 256 },
    ghost long: { vec_len entries ≡ 256 },
    ghost numbered: { ∥ Numbered list.items entries.items ∥₁ },
}
