// Starting the iterators over children, and their steps from either end.
// Kept: two calls and two steps for each type, since by a rule of the project each kind of node has a thin type of its own over one
// generic step.
ghost use Rattle.std.specs.Result.{MatchResult};
ghost use Rattle.result.specs.Rows.{NoRow, Uppermost};
ghost use Rattle.std.specs.Iterator.{at_most};
ghost use Rattle.forest.specs.Lefts.{nodes_left};
ghost use Rattle.forest.specs.Iters.{Back, Front, Starts, blocks_in, iter_rows, ops_in};

use crate::entering::children;
use crate::forest::Forest;
use crate::iter::{BlockIter, OpIter};
use linked_list::{step_back, step_front};
use records::{BlockPtr, OpPtr, RegionPtr};
use result::Refusal;

impl Forest {
    // The operations of a block.
    pub fn iter_ops(&self, block: BlockPtr) -> Result<OpIter<'_>, Refusal>
        ensures { MatchResult result
            (λ it. NoRow (iter_rows (ops_in self.now) block) × Starts ops_in self.now block it.forest.now it.left)
            (λ e. Uppermost (iter_rows (ops_in self.now) block) e) }
    {
        let left = children(&self.records, block)?;
        Ok(OpIter { forest: self, left })
    }

    // The blocks of a region.
    pub fn iter_blocks(&self, region: RegionPtr) -> Result<BlockIter<'_>, Refusal>
        ensures { MatchResult result
            (λ it. NoRow (iter_rows (blocks_in self.now) region) × Starts blocks_in self.now region it.forest.now it.left)
            (λ e. Uppermost (iter_rows (blocks_in self.now) region) e) }
    {
        let left = children(&self.records, region)?;
        Ok(BlockIter { forest: self, left })
    }
}

// A step gives the first operation that is left.
impl<'a> Iterator for OpIter<'a> {
    type Item = OpPtr;

    ghost next_gives = { λ s r t. Front ops_in s.forest.now s.left r t.forest.now t.left };

    ghost remaining = { λ s. at_most (nodes_left (ops_in s.forest.now) s.left s.spanned) };

    fn next(&mut self) -> Option<OpPtr> {
        let step = step_front::<OpPtr>(&self.forest.records, self.left);
        self.left = step.left;
        step.node
    }
}

// A step from the back gives the last operation that is left.
impl<'a> DoubleEndedIterator for OpIter<'a> {
    ghost next_back_gives = { λ s r t. Back ops_in s.forest.now s.left r t.forest.now t.left };

    fn next_back(&mut self) -> Option<OpPtr> {
        let step = step_back::<OpPtr>(&self.forest.records, self.left);
        self.left = step.left;
        step.node
    }
}

// A step gives the first block that is left.
impl<'a> Iterator for BlockIter<'a> {
    type Item = BlockPtr;

    ghost next_gives = { λ s r t. Front blocks_in s.forest.now s.left r t.forest.now t.left };

    ghost remaining = { λ s. at_most (nodes_left (blocks_in s.forest.now) s.left s.spanned) };

    fn next(&mut self) -> Option<BlockPtr> {
        let step = step_front::<BlockPtr>(&self.forest.records, self.left);
        self.left = step.left;
        step.node
    }
}

// A step from the back gives the last block that is left.
impl<'a> DoubleEndedIterator for BlockIter<'a> {
    ghost next_back_gives = { λ s r t. Back blocks_in s.forest.now s.left r t.forest.now t.left };

    fn next_back(&mut self) -> Option<BlockPtr> {
        let step = step_back::<BlockPtr>(&self.forest.records, self.left);
        self.left = step.left;
        step.node
    }
}
