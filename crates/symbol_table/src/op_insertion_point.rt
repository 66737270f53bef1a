// Where in a body a symbol is put.
use records::{BlockPtr, OpPtr};

// At either end of a block, or right after or before an operation; or a point that was not set, which names nothing.
#[derive(Clone, Copy)]
pub enum OpInsertionPoint {
    Unset,
    AtBlockStart(BlockPtr),
    AtBlockEnd(BlockPtr),
    AfterOperation(OpPtr),
    BeforeOperation(OpPtr),
}
