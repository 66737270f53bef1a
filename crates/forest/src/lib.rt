// The store of operations, blocks and regions: its links always describe lists of children, and nothing contains itself.
#![tactic(auto)]

mod child;
mod climbing;
mod entering;
mod erasing;
mod forest;
mod iter;
mod iterating;
mod linking;
mod making;
mod placing;

pub use forest::Forest;
pub use iter::{BlockIter, OpIter};
pub use records::{
    BasicBlock, BlockPtr, Kind, MadeOperation, OpPtr, Operation, Records, Region, RegionPtr, Shape,
};
