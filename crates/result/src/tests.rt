// The refusals as a caller sees them.
use super::Refusal;
use std::test::Fail;

#[test]
fn numbers_are_those_of_the_rows(rt: HostRuntime) {
    assert_eq!(rt; Refusal::Bounds.number(), 20);
    assert_eq!(rt; Refusal::Dangling.number(), 1);
    assert_eq!(rt; Refusal::SymbolRedefined.number(), 9);
    assert_eq!(rt; Refusal::GoesThroughTable.number(), 19);
}

#[test]
fn a_refusal_prints_its_name(rt: HostRuntime) -> Result<(), Fail> {
    let e = Refusal::NameTooLong;
    let text = format!(in rt.alloc(); "{e}")?;
    assert!(rt; text.as_str() == "NameTooLong");
    Ok(())
}
