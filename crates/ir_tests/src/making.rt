// Makings and notes as a user of the store meets them.
use arena::Handle;
use ir::{Context, MadeOperation, OpPtr};
use result::Refusal;
use std::process::Abort;
use std::test::Fail;

fn refused(rt: &impl Abort, made: Result<MadeOperation, Refusal>, why: Refusal) {
    assert!(rt; made.err() == Some(why));
}

#[test]
fn a_table_has_a_region_and_a_body(rt: HostRuntime) -> Result<(), Fail> {
    let mut context = Context::new(rt.alloc())?;
    let made = context.make_operation(1, 1, b"")?;
    assert!(rt; made.regions.len() == 1);
    assert!(rt; made.body.is_some());
    assert!(rt; context.num_regions(made.operation)? == 1);
    assert!(rt; context.region(made.operation, 1)?.is_none());
    assert!(rt; context.kind(made.operation)?.table);
    Ok(())
}

#[test]
fn a_symbol_keeps_its_name(rt: HostRuntime) -> Result<(), Fail> {
    let mut context = Context::new(rt.alloc())?;
    let made = context.make_operation(2, 0, b"put")?;
    let _ = context.make_operation(2, 0, b"call")?;
    let _ = context.make_operation(2, 0, b"put")?;
    assert!(rt; context.names_held() == 2);
    let name = context
        .name(made.operation)?
        .expect(&rt, "the name is lost");
    assert!(rt; name.as_bytes() == b"put".as_slice());
    Ok(())
}

#[test]
fn rows_are_tested_in_order(rt: HostRuntime) -> Result<(), Fail> {
    let mut context = Context::new(rt.alloc())?;
    refused(&rt, context.make_operation(8, 0, b""), Refusal::BadShape);
    refused(&rt, context.make_operation(0, 5, b""), Refusal::BadShape);
    refused(&rt, context.make_operation(1, 2, b""), Refusal::BadShape);
    refused(&rt, context.make_operation(2, 0, b""), Refusal::BadShape);
    refused(
        &rt,
        context.make_operation(4, 0, &[b'9'; 33]),
        Refusal::BadShape,
    );
    refused(
        &rt,
        context.make_operation(2, 0, &[b'9'; 33]),
        Refusal::NameTooLong,
    );
    refused(
        &rt,
        context.make_operation(2, 0, b"9a"),
        Refusal::MalformedIdentifier,
    );
    assert!(rt; context.operations_made() == 0);
    Ok(())
}

#[test]
fn a_stale_handle_dangles(rt: HostRuntime) -> Result<(), Fail> {
    let mut context = Context::new(rt.alloc())?;
    let made = context.make_operation(4, 0, b"")?;
    context.set_note(made.operation, 7)?;
    assert!(rt; context.note(made.operation)? == 7);
    let stale = OpPtr {
        handle: Handle {
            place: 0,
            version: 2,
        },
    };
    assert!(rt; context.set_note(stale, 9).err() == Some(Refusal::Dangling));
    assert!(rt; context.note(made.operation)? == 7);
    Ok(())
}

#[test]
fn a_making_past_512_is_refused_and_holds_no_name(rt: HostRuntime) -> Result<(), Fail> {
    let mut context = Context::new(rt.alloc())?;
    for _ in 0..512 {
        let _ = context.make_operation(0, 0, b"")?;
    }
    refused(
        &rt,
        context.make_operation(2, 0, b"late"),
        Refusal::RecordsFull,
    );
    assert!(rt; context.names_held() == 0);
    assert!(rt; context.operations_made() == 512);
    Ok(())
}

#[test]
fn a_name_past_256_is_refused(rt: HostRuntime) -> Result<(), Fail> {
    let mut context = Context::new(rt.alloc())?;
    for first in b'a'..b'q' {
        for second in b'a'..b'q' {
            let _ = context.make_operation(2, 0, &[first, second])?;
        }
    }
    refused(&rt, context.make_operation(2, 0, b"zz"), Refusal::NamesFull);
    let _ = context.make_operation(2, 0, b"pp")?;
    assert!(rt; context.names_held() == 256);
    Ok(())
}
