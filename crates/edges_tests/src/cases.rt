// The trees of the edge cases, built in a store and walked.
use super::recorder::Recorder;
use ir::{BlockPtr, Context, OpPtr, RegionPtr, SymbolTable};
use records::IRNode;
use result::Refusal;
use std::process::Abort;
use std::test::Fail;
use walkers::interruptible::immutable::{walk_op, walk_region};
use walkers::{Direction, Order, WALKCONFIG_PREORDER_FORWARD, WalkConfig, WalkResult};

#[test]
fn skip_at_a_block_keeps_the_next_block(rt: HostRuntime) -> Result<(), Fail> {
    let mut context = Context::new(rt.alloc())?;
    let r = context
        .make_operation(0, 1, b"")?
        .regions
        .get(0)
        .expect(&rt, "made with one");
    let b0 = context.make_block()?;
    context.insert_block_at_back(b0, r)?;
    let b1 = context.make_block()?;
    context.insert_block_at_back(b1, r)?;
    let o = context.make_operation(0, 0, b"")?.operation;
    context.insert_op_at_back(o, b0)?;
    let mut recorder = Recorder::new(1, WalkResult::Skip);
    let said = walk_region(&context, WALKCONFIG_PREORDER_FORWARD, r, &mut recorder)?;
    assert!(rt; matches!(said, WalkResult::Advance));
    assert!(rt; recorder.count == 3);
    let [first, second, third, _, _, _, _, _] = recorder.shown;
    assert!(rt; first == Some(IRNode::Region(r)));
    assert!(rt; second == Some(IRNode::BasicBlock(b0)));
    assert!(rt; third == Some(IRNode::BasicBlock(b1)));
    Ok(())
}

// A table with a body that holds a symbol with a region with a block, and a terminator after it.
#[derive(Clone, Copy)]
struct Nested {
    o0: OpPtr,
    r0: RegionPtr,
    b0: BlockPtr,
    o1: OpPtr,
    r1: RegionPtr,
    b1: BlockPtr,
    o2: OpPtr,
}

// Builds it in a fresh store, which grants each call.
fn build(rt: &impl Abort, context: &mut Context) -> Result<Nested, Refusal> {
    let table = context.make_operation(1, 1, b"")?;
    let b0 = table.body.expect(rt, "a table has one");
    let symbol = context.make_operation(2, 1, b"put")?;
    let r1 = symbol.regions.get(0).expect(rt, "made with one");
    let b1 = context.make_block()?;
    context.insert_block_at_back(b1, r1)?;
    let o2 = context.make_operation(4, 0, b"")?.operation;
    context.insert_op_at_back(o2, b0)?;
    SymbolTable::new(table.operation).insert(context, symbol.operation, None)?;
    Ok(Nested {
        o0: table.operation,
        r0: table.regions.get(0).expect(rt, "a table has one"),
        b0,
        o1: symbol.operation,
        r1,
        b1,
        o2,
    })
}

#[test]
fn operations_come_after_their_regions(rt: HostRuntime) -> Result<(), Fail> {
    let mut context = Context::new(rt.alloc())?;
    let tree = build(&rt, &mut context)?;
    let config = WalkConfig {
        regions_in_op: (Order::PostOrder, Direction::Forward),
        ..WALKCONFIG_PREORDER_FORWARD
    };
    let mut recorder = Recorder::new(8, WalkResult::Skip);
    let said = walk_op(&context, config, tree.o0, &mut recorder)?;
    assert!(rt; matches!(said, WalkResult::Advance));
    assert!(rt; recorder.count == 7);
    let [a, b, c, d, e, f, g, _] = recorder.shown;
    assert!(rt; a == Some(IRNode::Region(tree.r0)));
    assert!(rt; b == Some(IRNode::BasicBlock(tree.b0)));
    assert!(rt; c == Some(IRNode::Region(tree.r1)));
    assert!(rt; d == Some(IRNode::BasicBlock(tree.b1)));
    assert!(rt; e == Some(IRNode::Operation(tree.o1)));
    assert!(rt; f == Some(IRNode::Operation(tree.o2)));
    assert!(rt; g == Some(IRNode::Operation(tree.o0)));
    Ok(())
}

#[test]
fn break_in_an_inner_region_ends_the_whole_walk(rt: HostRuntime) -> Result<(), Fail> {
    let mut context = Context::new(rt.alloc())?;
    let tree = build(&rt, &mut context)?;
    let mut recorder = Recorder::new(5, WalkResult::Break(9));
    let said = walk_op(
        &context,
        WALKCONFIG_PREORDER_FORWARD,
        tree.o0,
        &mut recorder,
    )?;
    assert!(rt; matches!(said, WalkResult::Break(9)));
    assert!(rt; recorder.count == 6);
    let [a, b, c, d, e, f, _, _] = recorder.shown;
    assert!(rt; a == Some(IRNode::Operation(tree.o0)));
    assert!(rt; b == Some(IRNode::Region(tree.r0)));
    assert!(rt; c == Some(IRNode::BasicBlock(tree.b0)));
    assert!(rt; d == Some(IRNode::Operation(tree.o1)));
    assert!(rt; e == Some(IRNode::Region(tree.r1)));
    assert!(rt; f == Some(IRNode::BasicBlock(tree.b1)));
    Ok(())
}
