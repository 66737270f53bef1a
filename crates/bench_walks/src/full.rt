// A full store: 512 operations, 256 regions and 256 blocks.
use ir::{BlockPtr, Context, OpPtr};
use result::Refusal;

// How many operations have a region, each inside the one before; so many have none.
const DEPTH: u32 = 256;

// After how many levels a block is wide, and how many operations without regions stand in it.
const WIDTH: u32 = 64;

// Makes an operation with a region with a block.
fn make_level(context: &mut Context) -> Result<(OpPtr, BlockPtr), Refusal> {
    let made = context.make_operation(0, 1, b"")?;
    let block = context.make_block()?;
    let Some(region) = made.regions.get(0) else {
        return Err(Refusal::BadShape);
    };
    context.insert_block_at_back(block, region)?;
    Ok((made.operation, block))
}

// Makes a block wide.
fn widen(context: &mut Context, block: BlockPtr) -> Result<(), Refusal> {
    for _ in 0..WIDTH {
        let op = context.make_operation(0, 0, b"")?.operation;
        context.insert_op_at_back(op, block)?;
    }
    Ok(())
}

// Fills the store below one operation.
pub fn build(context: &mut Context) -> Result<OpPtr, Refusal> {
    let (root, mut block) = make_level(context)?;
    widen(context, block)?;
    for level in 1..DEPTH {
        let (op, inner) = make_level(context)?;
        context.insert_op_at_back(op, block)?;
        block = inner;
        if level % WIDTH == 0 {
            widen(context, block)?;
        }
    }
    Ok(root)
}
