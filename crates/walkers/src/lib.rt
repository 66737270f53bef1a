// Walks over the nodes of a store, without a stack: in which order nodes are shown, and who is shown them.
#![tactic(auto)]

mod advancing;
mod config;
mod driving;
mod driving_mut;
mod holding;
pub mod interruptible;
mod laws;
mod links;
mod mirroring;
mod operations_only;
mod steps;
mod table_walk;
pub mod uninterruptible;
mod visitor;
mod walk;

pub use advancing::Uninterruptible;
pub use config::{
    Direction, Order, WALKCONFIG_POSTORDER_FORWARD, WALKCONFIG_POSTORDER_REVERSE,
    WALKCONFIG_PREORDER_FORWARD, WALKCONFIG_PREORDER_REVERSE, WalkConfig,
};
pub use laws::{lists_exist, mirrored_walk, mirrored_whole, one_whole, presets, seen_once};
pub use operations_only::OperationsOnly;
pub use orders::WalkResult;
pub use table_walk::walk_symbol_table;
pub use visitor::{Visitor, VisitorMut};
pub use walk::Walk;
