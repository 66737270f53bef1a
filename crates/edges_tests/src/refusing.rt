// A table put into itself, and names that pass or are refused, as a user of the store meets them.
use identifier::Identifier;
use ir::{Context, OpInsertionPoint, OpPtr, SymbolTable};
use result::Refusal;
use std::process::Abort;
use std::test::Fail;

#[test]
fn a_new_table_is_not_put_into_itself(rt: HostRuntime) -> Result<(), Fail> {
    let mut context = Context::new(rt.alloc())?;
    let made = context.make_operation(3, 1, b"a")?;
    let body = made.body.expect(&rt, "a table has one");
    let book = SymbolTable::new(made.operation);
    let points = [
        None,
        Some(OpInsertionPoint::AtBlockStart(body)),
        Some(OpInsertionPoint::AtBlockEnd(body)),
    ];
    for point in points {
        let answer = book.insert(&mut context, made.operation, point);
        assert!(rt; answer.err() == Some(Refusal::WouldContainItself));
    }
    assert!(rt; book.lookup(&context, b"a")?.is_none());
    Ok(())
}

// A table, and an operation that stands in its body.
#[derive(Clone, Copy)]
struct Book {
    table: OpPtr,
    inner: OpPtr,
}

fn build(rt: &impl Abort, context: &mut Context) -> Result<Book, Refusal> {
    let made = context.make_operation(1, 1, b"")?;
    let inner = context.make_operation(0, 0, b"")?.operation;
    let body = made.body.expect(rt, "a table has one");
    context.insert_op_at_back(inner, body)?;
    Ok(Book {
        table: made.operation,
        inner,
    })
}

// Whether the bytes are refused so as an identifier, in the table, and in the table that is nearest to the operation in it.
fn refuses(context: &Context, book: Book, name: &[u8], why: Refusal) -> bool {
    let table = SymbolTable::new(book.table).lookup(context, name);
    let nearest = context.lookup_symbol_in_nearest_table(book.inner, name);
    let identifier = Identifier::try_new(name).err();
    identifier == Some(why) && table.err() == Some(why) && nearest.err() == Some(why)
}

#[test]
fn a_digit_first_and_no_bytes_are_malformed(rt: HostRuntime) -> Result<(), Fail> {
    let mut context = Context::new(rt.alloc())?;
    let book = build(&rt, &mut context)?;
    assert!(rt; refuses(&context, book, b"9a", Refusal::MalformedIdentifier));
    assert!(rt; refuses(&context, book, b"", Refusal::MalformedIdentifier));
    let named = context.make_operation(2, 0, b"9a").err();
    assert!(rt; named == Some(Refusal::MalformedIdentifier));
    Ok(())
}

#[test]
fn thirty_two_letters_pass_and_thirty_three_do_not(rt: HostRuntime) -> Result<(), Fail> {
    let mut context = Context::new(rt.alloc())?;
    let book = build(&rt, &mut context)?;
    let name = [b'Z'; 32];
    assert!(rt; Identifier::try_new(&name)?.len() == 32);
    assert!(rt;
        SymbolTable::new(book.table)
            .lookup(&context, &name)?
            .is_none()
    );
    let nearest = context.lookup_symbol_in_nearest_table(book.inner, &name)?;
    assert!(rt; nearest.is_none());
    assert!(rt; refuses(&context, book, &[b'Z'; 33], Refusal::NameTooLong));
    assert!(rt; refuses(&context, book, &[b'9'; 33], Refusal::NameTooLong));
    assert!(rt; context.make_operation(2, 4, &name).is_ok());
    let long = context.make_operation(2, 4, &[b'Z'; 33]).err();
    assert!(rt; long == Some(Refusal::NameTooLong));
    Ok(())
}
