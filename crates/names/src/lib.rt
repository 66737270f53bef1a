// The names that a store holds, numbered from 0 in the order in which they came.
#![tactic(auto)]

mod calls;
mod names;
#[cfg(test)]
mod tests;

pub use calls::numbers_are_one;
pub use names::Names;
