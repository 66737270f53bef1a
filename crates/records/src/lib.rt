// The records of operations, blocks and regions: how they are made, read and linked. Knows names by their numbers alone.
// Its tables are lent for reading alone: outside, a record of a store is changed by the calls that stand here alone.
#![tactic(auto)]

mod basic_block;
mod freeing;
mod handles;
mod ir_node;
mod kind;
mod linking;
mod making;
mod noting;
mod operation;
mod ptr;
mod reading;
mod records;
mod region;
mod region_list;
mod shape;
mod shaping;

pub use basic_block::BasicBlock;
pub use handles::{BlockPtr, OpPtr, RegionPtr};
pub use ir_node::IRNode;
pub use kind::{Kind, UnknownKind};
pub use making::MadeOperation;
pub use operation::Operation;
pub use ptr::Ptr;
pub use records::Records;
pub use region::Region;
pub use region_list::{RegionList, regions_eq_decides};
pub use shape::Shape;
