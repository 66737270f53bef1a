// The iterators over the operations of a block and the blocks of a region; each borrows the store while it stands.
// Kept: one thin type for each kind of node over one generic step, a rule of the project, so that no struct holds a reference beside
// a value of a parameter type.
ghost use Rattle.linked_list.specs.Spans.{Spanned};
ghost use Rattle.records.specs.Views.{block_view, op_view};

use crate::forest::Forest;
use linked_list::Span;
use records::{BlockPtr, OpPtr};

// What is left of the operations of a block.
#[derive(Drop)]
pub struct OpIter<'a> {
    pub(crate) forest: &'a Forest,
    pub(crate) left: Span<OpPtr>,
    ghost spanned: { Spanned (op_view forest.now.records) left },
}

// What is left of the blocks of a region.
#[derive(Drop)]
pub struct BlockIter<'a> {
    pub(crate) forest: &'a Forest,
    pub(crate) left: Span<BlockPtr>,
    ghost spanned: { Spanned (block_view forest.now.records) left },
}
