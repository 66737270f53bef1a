// A map over a slice of entries that its holder lends at each call.
#![tactic(auto)]

mod entry;
mod map;
mod shift;
#[cfg(test)]
mod tests;
mod unused;
mod walk;

pub use entry::{Entry, Full, Key};
pub use map::{get, insert, remove};
pub use unused::{no_entries_no_keys, unused_is_probed};
