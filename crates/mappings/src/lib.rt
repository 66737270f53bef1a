// The mappings of symbol tables: the operation that each table has under each name.
#![tactic(auto)]

mod calls;
mod keeper;
mod key;
mod laws;
mod mappings;
mod name_in;
#[cfg(test)]
mod tests;

pub use keeper::Keeper;
pub use laws::{names_are_held_once, room_for_one_more};
pub use mappings::Mappings;
pub use name_in::NameIn;
