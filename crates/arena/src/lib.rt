// Records of one kind in places that are taken, freed and taken again, each under a version.
#![tactic(auto)]

mod arena;
mod handle;
mod slot;

pub use arena::Arena;
pub use handle::Handle;
pub use slot::{Slot, State};
