// What a script has made so far.
ghost use Rattle.ir.specs.Stores.{nodes};
ghost use Rattle.script.specs.Found.{AllFound};

use crate::numbers::Numbers;
use ir::{BlockPtr, Context, OpPtr, RegionPtr};

// A store, and the numbers of its nodes. Each live node has a number.
#[derive(Drop)]
pub(crate) struct State {
    pub(crate) context: Context,
    pub(crate) operations: Numbers<OpPtr>,
    pub(crate) blocks: Numbers<BlockPtr>,
    pub(crate) regions: Numbers<RegionPtr>,
    ghost found: { ∥ AllFound (nodes context) operations blocks regions ∥₁ },
}
