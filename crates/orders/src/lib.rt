// The order in which a walk shows the nodes of a tree, and what a walk is. Theory alone, over any kind of node.
#![tactic(auto)]

mod laws;
mod place;
mod walk_result;

pub use laws::{mirrored, mirrored_walk, one_order, one_walk, seen_once};
pub use place::At;
pub use walk_result::WalkResult;
