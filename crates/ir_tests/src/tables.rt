// Symbol tables, and erasing, as a user of the store meets them.
use ir::{Context, OpPtr, SymbolTable};
use result::Refusal;
use std::process::Abort;
use std::test::Fail;

// A table, and a symbol that stands in no block.
struct Two {
    table: OpPtr,
    symbol: OpPtr,
}

fn make_two(context: &mut Context) -> Result<Two, Refusal> {
    let table = context.make_operation(1, 1, b"")?.operation;
    let symbol = context.make_operation(2, 0, b"put")?.operation;
    Ok(Two { table, symbol })
}

fn refused(rt: &impl Abort, found: Result<Option<OpPtr>, Refusal>, why: Refusal) {
    assert!(rt; found.err() == Some(why));
}

#[test]
fn a_symbol_is_found_while_it_stands_in_the_table(rt: HostRuntime) -> Result<(), Fail> {
    let mut context = Context::new(rt.alloc())?;
    let Two { table, symbol } = make_two(&mut context)?;
    let book = SymbolTable::new(table);
    assert!(rt; book.lookup(&context, b"put")?.is_none());
    book.insert(&mut context, symbol, None)?;
    assert!(rt; book.lookup(&context, b"put")? == Some(symbol));
    assert!(rt; book.lookup(&context, b"call")?.is_none());
    book.remove(&mut context, symbol)?;
    assert!(rt; book.lookup(&context, b"put")?.is_none());
    assert!(rt; context.names_held() == 1);
    Ok(())
}

#[test]
fn rows_of_lookups_are_tested_in_order(rt: HostRuntime) -> Result<(), Fail> {
    let mut context = Context::new(rt.alloc())?;
    let Two { table, symbol } = make_two(&mut context)?;
    let book = SymbolTable::new(table);
    let none = SymbolTable::new(symbol);
    refused(&rt, none.lookup(&context, b""), Refusal::NotATable);
    refused(
        &rt,
        book.lookup(&context, b"9a"),
        Refusal::MalformedIdentifier,
    );
    refused(
        &rt,
        book.lookup(&context, b""),
        Refusal::MalformedIdentifier,
    );
    refused(
        &rt,
        book.lookup(&context, &[b'9'; 33]),
        Refusal::NameTooLong,
    );
    assert!(rt; book.lookup(&context, &[b'a'; 32])?.is_none());
    context.erase_op(table)?;
    refused(&rt, book.lookup(&context, b""), Refusal::Dangling);
    Ok(())
}

#[test]
fn the_nearest_table_is_found_from_below(rt: HostRuntime) -> Result<(), Fail> {
    let mut context = Context::new(rt.alloc())?;
    let Two { table, symbol } = make_two(&mut context)?;
    SymbolTable::new(table).insert(&mut context, symbol, None)?;
    assert!(rt; context.nearest_symbol_table(table)? == Some(table));
    assert!(rt; context.nearest_symbol_table(symbol)? == Some(table));
    assert!(rt; context.lookup_symbol_in_nearest_table(symbol, b"put")? == Some(symbol));
    let alone = context.make_operation(0, 0, b"")?.operation;
    assert!(rt; context.nearest_symbol_table(alone)?.is_none());
    assert!(rt;
        context
            .lookup_symbol_in_nearest_table(alone, b"put")?
            .is_none()
    );
    refused(
        &rt,
        context.lookup_symbol_in_nearest_table(alone, b""),
        Refusal::MalformedIdentifier,
    );
    Ok(())
}

#[test]
fn a_table_goes_not_into_itself(rt: HostRuntime) -> Result<(), Fail> {
    let mut context = Context::new(rt.alloc())?;
    let both = context.make_operation(3, 1, b"both")?.operation;
    let book = SymbolTable::new(both);
    assert!(rt; book.insert(&mut context, both, None).err() == Some(Refusal::WouldContainItself));
    assert!(rt; book.lookup(&context, b"both")?.is_none());
    Ok(())
}
