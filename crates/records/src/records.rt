// The three tables of records. No other invariant than their sizes: an edit of links passes through states that break one.
ghost use Rattle.std.specs.Prelude.{◌≡◌};
ghost use Rattle.arena.specs.Recorded.{capacity};

use crate::basic_block::BasicBlock;
use crate::operation::Operation;
use crate::region::Region;
use arena::Arena;

// At most 512 operations, 256 blocks and 256 regions.
#[derive(Drop)]
pub struct Records {
    pub(crate) operations: Arena<Operation>,
    pub(crate) blocks: Arena<BasicBlock>,
    pub(crate) regions: Arena<Region>,
    ghost ops: { capacity operations ≡ 512 },
    ghost blks: { capacity blocks ≡ 256 },
    ghost rgns: { capacity regions ≡ 256 },
}
