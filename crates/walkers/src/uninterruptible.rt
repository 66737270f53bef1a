// Walks that no answer steers: every node is shown.

pub mod immutable;
pub mod mutable;
