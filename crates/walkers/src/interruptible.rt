// Walks that the answers of a visitor steer: they may skip nodes and end the walk.

pub mod immutable;
pub mod mutable;
