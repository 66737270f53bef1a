// Names as a store holds them.
use super::Names;
use identifier::Identifier;
use std::test::Fail;

#[test]
fn a_name_keeps_its_number(rt: HostRuntime) -> Result<(), Fail> {
    let mut names = Names::new(rt.alloc())?;
    let put = Identifier::try_new(b"put")?;
    let call = Identifier::try_new(b"call")?;
    assert!(rt; names.hold(put) == Some(0));
    assert!(rt; names.hold(call) == Some(1));
    assert!(rt; names.hold(put) == Some(0));
    assert!(rt; names.find(call) == Some(1));
    assert!(rt; names.count() == 2);
    Ok(())
}

#[test]
fn a_new_name_past_256_is_refused(rt: HostRuntime) -> Result<(), Fail> {
    let mut names = Names::new(rt.alloc())?;
    for first in b'a'..b'q' {
        for second in b'a'..b'q' {
            let name = Identifier::try_new(&[first, second])?;
            assert!(rt; names.hold(name).is_some());
        }
    }
    assert!(rt; names.hold(Identifier::try_new(b"zz")?) == None);
    assert!(rt; names.count() == 256);
    Ok(())
}
