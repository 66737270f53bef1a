// Erasing a node with all that lies below it: each node ends after its descendants, forward.
#![tactic(auto)]

mod erasing;

pub use erasing::{erase_block, erase_op};
