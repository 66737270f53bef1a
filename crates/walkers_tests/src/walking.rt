// Walking a store as a user of it meets it.
use arena::Handle;
use ir::{BlockPtr, Context, IRNode, OpPtr, RegionPtr};
use passes::Numberer;
use result::Refusal;
use std::test::Fail;
use walkers::interruptible::mutable::walk_op;
use walkers::{
    Direction, Order, WALKCONFIG_POSTORDER_FORWARD, WALKCONFIG_PREORDER_FORWARD,
    WALKCONFIG_PREORDER_REVERSE, Walk, WalkConfig, WalkResult,
};

// An operation whose region has a block with two operations, of which the first has a region with an empty block.
#[derive(Clone, Copy)]
struct Tree {
    outer: OpPtr,
    region: RegionPtr,
    block: BlockPtr,
    first: OpPtr,
    inner_region: RegionPtr,
    inner_block: BlockPtr,
    second: OpPtr,
}

// Makes the tree.
fn make_tree(context: &mut Context) -> Result<Tree, Refusal> {
    let outer = context.make_operation(0, 1, b"")?;
    let region = outer.regions.get(0).ok_or(Refusal::BadShape)?;
    let block = context.make_block()?;
    context.insert_block_at_back(block, region)?;
    let first = context.make_operation(0, 1, b"")?;
    let inner_region = first.regions.get(0).ok_or(Refusal::BadShape)?;
    let inner_block = context.make_block()?;
    context.insert_block_at_back(inner_block, inner_region)?;
    let second = context.make_operation(0, 0, b"")?;
    context.insert_op_at_back(first.operation, block)?;
    context.insert_op_at_back(second.operation, block)?;
    Ok(Tree {
        outer: outer.operation,
        region,
        block,
        first: first.operation,
        inner_region,
        inner_block,
        second: second.operation,
    })
}

// Whether the walk, always told to advance, gives these nodes and then none.
fn gives(walk: &mut Walk<'_>, nodes: &[IRNode]) -> bool {
    let mut right = true;
    for node in nodes {
        right = right & (walk.step(&WalkResult::<()>::Advance) == Some(*node));
    }
    right & walk.step(&WalkResult::<()>::Advance).is_none()
}

#[test]
fn operations_after_and_the_rest_before_their_children(rt: HostRuntime) -> Result<(), Fail> {
    let mut context = Context::new(rt.alloc())?;
    let tree = make_tree(&mut context)?;
    let config = WalkConfig {
        regions_in_op: (Order::PostOrder, Direction::Forward),
        ops_in_block: (Order::PreOrder, Direction::Forward),
        blocks_in_region: (Order::PreOrder, Direction::Forward),
    };
    let mut walk = Walk::new(&context, config, IRNode::Operation(tree.outer))?;
    let right = gives(
        &mut walk,
        &[
            IRNode::Region(tree.region),
            IRNode::BasicBlock(tree.block),
            IRNode::Region(tree.inner_region),
            IRNode::BasicBlock(tree.inner_block),
            IRNode::Operation(tree.first),
            IRNode::Operation(tree.second),
            IRNode::Operation(tree.outer),
        ],
    );
    assert!(rt; right);
    Ok(())
}

#[test]
fn reverse_gives_the_last_child_first(rt: HostRuntime) -> Result<(), Fail> {
    let mut context = Context::new(rt.alloc())?;
    let tree = make_tree(&mut context)?;
    let root = IRNode::BasicBlock(tree.block);
    let mut walk = Walk::new(&context, WALKCONFIG_PREORDER_REVERSE, root)?;
    let right = gives(
        &mut walk,
        &[
            IRNode::BasicBlock(tree.block),
            IRNode::Operation(tree.second),
            IRNode::Operation(tree.first),
            IRNode::Region(tree.inner_region),
            IRNode::BasicBlock(tree.inner_block),
        ],
    );
    assert!(rt; right);
    Ok(())
}

#[test]
fn skip_at_a_block_goes_on_with_the_next_block(rt: HostRuntime) -> Result<(), Fail> {
    let mut context = Context::new(rt.alloc())?;
    let tree = make_tree(&mut context)?;
    let next = context.make_block()?;
    context.insert_block_after(next, tree.block)?;
    let root = IRNode::Region(tree.region);
    let mut walk = Walk::new(&context, WALKCONFIG_PREORDER_FORWARD, root)?;
    let advance = WalkResult::<()>::Advance;
    let region = walk.step(&advance) == Some(root);
    let block = walk.step(&advance) == Some(IRNode::BasicBlock(tree.block));
    let after = walk.step(&WalkResult::<()>::Skip) == Some(IRNode::BasicBlock(next));
    assert!(rt; region & block & after & walk.step(&advance).is_none());
    Ok(())
}

#[test]
fn break_in_a_nested_region_ends_the_walk_for_good(rt: HostRuntime) -> Result<(), Fail> {
    let mut context = Context::new(rt.alloc())?;
    let tree = make_tree(&mut context)?;
    let root = IRNode::Region(tree.inner_region);
    let mut walk = Walk::new(&context, WALKCONFIG_PREORDER_FORWARD, root)?;
    let advance = WalkResult::<u8>::Advance;
    let region = walk.step(&advance) == Some(root);
    let none = walk.step(&WalkResult::Break(7u8)).is_none();
    assert!(rt; region & none & walk.step(&advance).is_none());
    Ok(())
}

#[test]
fn a_writing_walk_numbers_operations_as_it_shows_them(rt: HostRuntime) -> Result<(), Fail> {
    let mut context = Context::new(rt.alloc())?;
    let tree = make_tree(&mut context)?;
    let mut numberer = Numberer { count: 1 };
    let said = walk_op(
        &mut context,
        WALKCONFIG_POSTORDER_FORWARD,
        tree.outer,
        &mut numberer,
    )?;
    let first = context.note(tree.first)? == 1;
    let second = context.note(tree.second)? == 2;
    let outer = context.note(tree.outer)? == 3;
    let advance = match said {
        WalkResult::Advance => true,
        _ => false,
    };
    assert!(rt; advance & first & second & outer & (numberer.count == 4));
    Ok(())
}

#[test]
fn a_walk_from_a_dead_handle_is_refused(rt: HostRuntime) -> Result<(), Fail> {
    let mut context = Context::new(rt.alloc())?;
    let gone = OpPtr {
        handle: Handle {
            place: 0,
            version: 1,
        },
    };
    let mut numberer = Numberer { count: 1 };
    let answer = walk_op(
        &mut context,
        WALKCONFIG_PREORDER_FORWARD,
        gone,
        &mut numberer,
    );
    assert!(rt; answer.err() == Some(Refusal::Dangling));
    assert_eq!(rt; numberer.count, 1);
    Ok(())
}
