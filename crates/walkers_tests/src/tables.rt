// Walking symbol tables as a user of them meets it.
use crate::digits::Digits;
use ir::{Context, OpPtr};
use result::Refusal;
use std::test::Fail;
use walkers::{OperationsOnly, walk_symbol_table};

// A table with an operation, a nested table and another operation; in the first operation stands one, and in the nested table too. Each has
// a note of its own, from 1 on in this order.
#[derive(Clone, Copy)]
struct Nest {
    table: OpPtr,
    nested: OpPtr,
    last: OpPtr,
}

// Makes an operation of a kind, with a region where it is to have one, and a note.
fn noted(context: &mut Context, kind: u8, regions: u8, note: u32) -> Result<OpPtr, Refusal> {
    let made = context.make_operation(kind, regions, b"")?;
    context.set_note(made.operation, note)?;
    Ok(made.operation)
}

// Puts an operation into a block in the region of another, made for it.
fn put_into(context: &mut Context, op: OpPtr, outer: OpPtr) -> Result<(), Refusal> {
    let region = context.region(outer, 0)?.ok_or(Refusal::BadShape)?;
    let block = context.make_block()?;
    context.insert_block_at_back(block, region)?;
    context.insert_op_at_back(op, block)
}

// Makes the table and what stands in it.
fn make_nest(context: &mut Context) -> Result<Nest, Refusal> {
    let table = context.make_operation(1, 1, b"")?;
    let body = table.body.ok_or(Refusal::BadShape)?;
    let nested = context.make_operation(1, 1, b"")?;
    let nested_body = nested.body.ok_or(Refusal::BadShape)?;
    context.set_note(nested.operation, 3)?;
    let first = noted(context, 0, 1, 1)?;
    let inner = noted(context, 0, 0, 2)?;
    let hidden = noted(context, 0, 0, 4)?;
    let last = noted(context, 0, 0, 5)?;
    put_into(context, inner, first)?;
    context.insert_op_at_back(hidden, nested_body)?;
    context.insert_op_at_back(first, body)?;
    context.insert_op_at_back(nested.operation, body)?;
    context.insert_op_at_back(last, body)?;
    Ok(Nest {
        table: table.operation,
        nested: nested.operation,
        last,
    })
}

#[test]
fn operations_are_shown_and_nested_tables_are_not(rt: HostRuntime) -> Result<(), Fail> {
    let mut context = Context::new(rt.alloc())?;
    let nest = make_nest(&mut context)?;
    let mut visitor = OperationsOnly {
        inner: Digits { number: 0 },
    };
    walk_symbol_table(&context, nest.table, &mut visitor)?;
    assert_eq!(rt; visitor.inner.number, 125);
    walk_symbol_table(&context, nest.nested, &mut visitor)?;
    assert_eq!(rt; visitor.inner.number, 1254);
    Ok(())
}

#[test]
fn what_is_no_live_table_is_not_walked(rt: HostRuntime) -> Result<(), Fail> {
    let mut context = Context::new(rt.alloc())?;
    let nest = make_nest(&mut context)?;
    let mut visitor = OperationsOnly {
        inner: Digits { number: 7 },
    };
    let no_table = walk_symbol_table(&context, nest.last, &mut visitor);
    assert!(rt; no_table.err() == Some(Refusal::NotATable));
    context.erase_op(nest.nested)?;
    let dead = walk_symbol_table(&context, nest.nested, &mut visitor);
    assert!(rt; dead.err() == Some(Refusal::Dangling));
    assert_eq!(rt; visitor.inner.number, 7);
    Ok(())
}
