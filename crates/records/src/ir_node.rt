// A node of any kind.
use crate::handles::{BlockPtr, OpPtr, RegionPtr};

// Names an operation, a block or a region.
#[derive(Clone, Copy, PartialEq, Eq)]
pub enum IRNode {
    Operation(OpPtr),
    BasicBlock(BlockPtr),
    Region(RegionPtr),
}
