// Linking, unlinking and going through children as a user of the store meets them.
use arena::Handle;
use ir::{BlockPtr, Context, OpPtr, RegionPtr};
use result::Refusal;
use std::test::Fail;

// Whether the call was refused as Dangling.
fn dangles(answer: Result<(), Refusal>) -> bool {
    answer.err() == Some(Refusal::Dangling)
}

// A handle whose version was never given.
fn stale() -> Handle {
    Handle {
        place: 0,
        version: 2,
    }
}

#[test]
fn a_stale_handle_is_refused_by_every_link_of_operations(rt: HostRuntime) -> Result<(), Fail> {
    let mut context = Context::new(rt.alloc())?;
    let block = context.make_block()?;
    let op = context.make_operation(0, 0, b"")?.operation;
    let gone = OpPtr { handle: stale() };
    let no_block = BlockPtr { handle: stale() };
    let front = dangles(context.insert_op_at_front(gone, block));
    let back = dangles(context.insert_op_at_back(op, no_block));
    let before = dangles(context.insert_op_before(op, gone));
    let after = dangles(context.insert_op_after(gone, op));
    let out = dangles(context.unlink_op(gone));
    assert!(rt; front & back & before & after & out);
    Ok(())
}

#[test]
fn a_stale_handle_is_refused_by_every_link_of_blocks(rt: HostRuntime) -> Result<(), Fail> {
    let mut context = Context::new(rt.alloc())?;
    let block = context.make_block()?;
    let region = context
        .make_operation(0, 1, b"")?
        .regions
        .get(0)
        .expect(&rt, "made with one");
    let gone = BlockPtr { handle: stale() };
    let no_region = RegionPtr { handle: stale() };
    let front = dangles(context.insert_block_at_front(gone, region));
    let back = dangles(context.insert_block_at_back(block, no_region));
    let before = dangles(context.insert_block_before(block, gone));
    let after = dangles(context.insert_block_after(gone, block));
    let out = dangles(context.unlink_block(gone));
    assert!(rt; front & back & before & after & out);
    Ok(())
}

// A block with three operations.
struct Three {
    block: BlockPtr,
    a: OpPtr,
    b: OpPtr,
    c: OpPtr,
}

fn make_three(context: &mut Context) -> Result<Three, Refusal> {
    let block = context.make_block()?;
    let a = context.make_operation(0, 0, b"")?.operation;
    let b = context.make_operation(0, 0, b"")?.operation;
    let c = context.make_operation(0, 0, b"")?.operation;
    context.insert_op_at_back(b, block)?;
    context.insert_op_before(a, b)?;
    context.insert_op_after(c, b)?;
    Ok(Three { block, a, b, c })
}

#[test]
fn an_iterator_gives_each_node_once_from_either_end(rt: HostRuntime) -> Result<(), Fail> {
    let mut context = Context::new(rt.alloc())?;
    let Three { block, a, b, c } = make_three(&mut context)?;
    let mut nodes = context.iter_ops(block)?;
    let first = nodes.next() == Some(a);
    let last = nodes.next_back() == Some(c);
    let middle = nodes.next() == Some(b);
    assert!(rt; first & last & middle);
    assert!(rt; nodes.next_back().is_none() & nodes.next().is_none());
    Ok(())
}

#[test]
fn an_unlinked_operation_is_no_child(rt: HostRuntime) -> Result<(), Fail> {
    let mut context = Context::new(rt.alloc())?;
    let Three { block, a, b, c } = make_three(&mut context)?;
    context.unlink_op(b)?;
    assert!(rt; !context.is_op_linked(b)?);
    let mut nodes = context.iter_ops(block)?;
    let last = nodes.next_back() == Some(c);
    let first = nodes.next_back() == Some(a);
    assert!(rt; last & first & nodes.next_back().is_none());
    Ok(())
}

#[test]
fn a_loop_comes_to_each_operation(rt: HostRuntime) -> Result<(), Fail> {
    let mut context = Context::new(rt.alloc())?;
    let Three { block, a, b, c } = make_three(&mut context)?;
    let mut wanted = Some(a);
    for op in context.iter_ops(block)? {
        assert!(rt; wanted == Some(op));
        wanted = if op == a {
            Some(b)
        } else if op == b {
            Some(c)
        } else {
            None
        };
    }
    assert!(rt; wanted.is_none());
    assert!(rt; context.iter_ops(block)?.rev().last() == Some(a));
    assert!(rt; context.iter_ops(block)?.any(|op| op == b));
    Ok(())
}
