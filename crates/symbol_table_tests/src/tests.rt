// Symbols put into tables, taken out, looked up and erased.
use linked_list::Spot;
use records::{BlockPtr, MadeOperation, OpPtr, Shape};
use result::Refusal;
use std::process::Abort;
use std::test::Fail;
use symbol_table::{OpInsertionPoint, SymbolTables};

// Makes an operation of this kind (1 a table, 2 a symbol, 4 a terminator); a symbol gets the name with this number.
fn make(
    rt: &impl Abort,
    tables: &mut SymbolTables,
    kind: u8,
    name: u16,
) -> Result<MadeOperation, Refusal> {
    let symbol = kind / 2 % 2 == 1;
    let shape = Shape::new(kind, kind % 2, symbol).expect(rt, "a shape");
    tables.make_operation(shape, if symbol { Some(name) } else { None })
}

// A table and its body.
fn book(rt: &impl Abort, tables: &mut SymbolTables) -> Result<(OpPtr, BlockPtr), Refusal> {
    let made = make(rt, tables, 1, 0)?;
    Ok((made.operation, made.body.expect(rt, "a table has a body")))
}

fn symbol(rt: &impl Abort, tables: &mut SymbolTables, name: u16) -> Result<OpPtr, Refusal> {
    Ok(make(rt, tables, 2, name)?.operation)
}

// The operations of a block, in order.
fn listed(tables: &SymbolTables, block: BlockPtr, wanted: &[OpPtr]) -> Result<bool, Refusal> {
    let mut at = 0;
    for op in tables.forest().iter_ops(block)? {
        if at >= wanted.len() || wanted[at] != op {
            return Ok(false);
        }
        at += 1;
    }
    Ok(at == wanted.len())
}

#[test]
fn a_symbol_put_is_found_until_it_is_taken(rt: HostRuntime) -> Result<(), Fail> {
    let mut tables = SymbolTables::new(rt.alloc())?;
    let (table, body) = book(&rt, &mut tables)?;
    let put = symbol(&rt, &mut tables, 7)?;
    assert!(rt; tables.lookup(table, 7) == None);
    tables.insert(table, put, None)?;
    assert!(rt; tables.lookup(table, 7) == Some(put));
    assert!(rt; listed(&tables, body, &[put])?);
    let again = symbol(&rt, &mut tables, 7)?;
    assert!(rt; tables.insert(table, again, None).err() == Some(Refusal::SymbolRedefined));
    tables.remove(table, put)?;
    assert!(rt; tables.lookup(table, 7) == None);
    assert!(rt; listed(&tables, body, &[])?);
    Ok(())
}

#[test]
fn a_symbol_of_another_table_is_neither_put_nor_taken(rt: HostRuntime) -> Result<(), Fail> {
    let mut tables = SymbolTables::new(rt.alloc())?;
    let (one, _) = book(&rt, &mut tables)?;
    let (other, _) = book(&rt, &mut tables)?;
    let put = symbol(&rt, &mut tables, 3)?;
    tables.insert(one, put, None)?;
    assert!(rt;
        tables.insert(other, put, None).err() == Some(Refusal::SymbolOpAlreadyInAnotherTable)
    );
    assert!(rt; tables.lookup(other, 3) == None);
    assert!(rt; tables.remove(other, put).err() == Some(Refusal::SymbolOpNotInTableOp));
    assert!(rt; tables.lookup(one, 3) == Some(put));
    Ok(())
}

#[test]
fn a_point_must_lie_in_the_body(rt: HostRuntime) -> Result<(), Fail> {
    let mut tables = SymbolTables::new(rt.alloc())?;
    let (table, _) = book(&rt, &mut tables)?;
    let (_, elsewhere) = book(&rt, &mut tables)?;
    let put = symbol(&rt, &mut tables, 3)?;
    let loose = make(&rt, &mut tables, 0, 0)?.operation;
    let unset = tables.insert(table, put, Some(OpInsertionPoint::Unset));
    let beside = tables.insert(table, put, Some(OpInsertionPoint::AfterOperation(loose)));
    let other = tables.insert(table, put, Some(OpInsertionPoint::AtBlockEnd(elsewhere)));
    assert!(rt; unset.err() == Some(Refusal::InvalidInsertionPoint));
    assert!(rt; beside.err() == Some(Refusal::InvalidInsertionPoint));
    assert!(rt; other.err() == Some(Refusal::InsertionPointNotInSameTable));
    assert!(rt; tables.lookup(table, 3) == None);
    Ok(())
}

#[test]
fn symbols_go_before_the_terminator_or_where_the_point_says(rt: HostRuntime) -> Result<(), Fail> {
    let mut tables = SymbolTables::new(rt.alloc())?;
    let (table, body) = book(&rt, &mut tables)?;
    let end = make(&rt, &mut tables, 4, 0)?.operation;
    tables.link_op(end, Spot::AtBack(body))?;
    let a = symbol(&rt, &mut tables, 1)?;
    let b = symbol(&rt, &mut tables, 2)?;
    let c = symbol(&rt, &mut tables, 3)?;
    tables.insert(table, a, None)?;
    tables.insert(table, b, Some(OpInsertionPoint::AtBlockStart(body)))?;
    tables.insert(table, c, Some(OpInsertionPoint::AfterOperation(end)))?;
    assert!(rt; listed(&tables, body, &[b, a, end, c])?);
    Ok(())
}

#[test]
fn a_table_never_comes_to_stand_in_itself(rt: HostRuntime) -> Result<(), Fail> {
    let mut tables = SymbolTables::new(rt.alloc())?;
    let table = make(&rt, &mut tables, 3, 9)?.operation;
    assert!(rt; tables.insert(table, table, None).err() == Some(Refusal::WouldContainItself));
    assert!(rt; tables.lookup(table, 9) == None);
    Ok(())
}

#[test]
fn the_nearest_table_is_the_first_upwards(rt: HostRuntime) -> Result<(), Fail> {
    let mut tables = SymbolTables::new(rt.alloc())?;
    let (outer, body) = book(&rt, &mut tables)?;
    let inner = make(&rt, &mut tables, 3, 9)?.operation;
    let plain = make(&rt, &mut tables, 0, 0)?.operation;
    assert!(rt; tables.nearest_symbol_table(plain)? == None);
    tables.link_op(plain, Spot::AtBack(body))?;
    tables.insert(outer, inner, None)?;
    assert!(rt; tables.nearest_symbol_table(plain)? == Some(outer));
    assert!(rt; tables.nearest_symbol_table(inner)? == Some(inner));
    Ok(())
}

#[test]
fn names_end_with_their_tables_and_no_others(rt: HostRuntime) -> Result<(), Fail> {
    let mut tables = SymbolTables::new(rt.alloc())?;
    let (outer, body) = book(&rt, &mut tables)?;
    let (other, _) = book(&rt, &mut tables)?;
    let inner = make(&rt, &mut tables, 3, 9)?.operation;
    let low = symbol(&rt, &mut tables, 5)?;
    let kept = symbol(&rt, &mut tables, 5)?;
    tables.insert(outer, inner, None)?;
    tables.insert(inner, low, None)?;
    tables.insert(other, kept, None)?;
    assert!(rt; tables.erase_op(inner).err() == Some(Refusal::GoesThroughTable));
    assert!(rt; tables.erase_block(body).err() == Some(Refusal::FixedBody));
    assert!(rt; tables.lookup(inner, 5) == Some(low));
    tables.erase_op(outer)?;
    assert!(rt; tables.lookup(outer, 9) == None);
    assert!(rt; tables.lookup(inner, 5) == None);
    assert!(rt; tables.lookup(other, 5) == Some(kept));
    assert!(rt; tables.erase_op(low).err() == Some(Refusal::Dangling));
    Ok(())
}

#[test]
fn a_block_ends_with_the_names_of_its_tables(rt: HostRuntime) -> Result<(), Fail> {
    let mut tables = SymbolTables::new(rt.alloc())?;
    let block = tables.make_block()?;
    let (table, _) = book(&rt, &mut tables)?;
    let put = symbol(&rt, &mut tables, 7)?;
    tables.link_op(table, Spot::AtBack(block))?;
    tables.insert(table, put, None)?;
    tables.erase_block(block)?;
    assert!(rt; tables.lookup(table, 7) == None);
    assert!(rt; !tables.forest().is_live(put));
    Ok(())
}

#[test]
fn a_symbol_is_erased_out_of_its_table_alone(rt: HostRuntime) -> Result<(), Fail> {
    let mut tables = SymbolTables::new(rt.alloc())?;
    let (table, body) = book(&rt, &mut tables)?;
    let (other, _) = book(&rt, &mut tables)?;
    let put = symbol(&rt, &mut tables, 7)?;
    let stays = symbol(&rt, &mut tables, 8)?;
    tables.insert(table, put, None)?;
    tables.insert(table, stays, None)?;
    assert!(rt; tables.erase(other, put).err() == Some(Refusal::SymbolOpNotInTableOp));
    assert!(rt; tables.erase(put, stays).err() == Some(Refusal::NotATable));
    tables.erase(table, put)?;
    assert!(rt; tables.lookup(table, 7) == None);
    assert!(rt; tables.lookup(table, 8) == Some(stays));
    assert!(rt; !tables.forest().is_live(put));
    assert!(rt; listed(&tables, body, &[stays])?);
    Ok(())
}
