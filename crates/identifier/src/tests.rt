// Which names make an identifier, and what it holds.
use super::Identifier;
use result::Refusal;
use std::process::Abort;
use std::test::Fail;

#[test]
fn thirty_two_letters_pass(rt: HostRuntime) -> Result<(), Fail> {
    let name = Identifier::try_new(&[b'a'; 32])?;
    assert_eq!(rt; name.len(), 32);
    Ok(())
}

#[test]
fn thirty_three_letters_are_too_long(rt: HostRuntime) {
    refused(&rt, &[b'a'; 33], Refusal::NameTooLong);
}

#[test]
fn a_digit_first_or_no_byte_is_malformed(rt: HostRuntime) {
    refused(&rt, b"9a", Refusal::MalformedIdentifier);
    refused(&rt, b"", Refusal::MalformedIdentifier);
}

#[test]
fn an_identifier_keeps_its_bytes(rt: HostRuntime) -> Result<(), Fail> {
    let name = Identifier::try_new(b"_a9")?;
    assert!(rt; name.as_bytes() == b"_a9".as_slice());
    Ok(())
}

fn refused(rt: &impl Abort, name: &[u8], why: Refusal) {
    assert!(rt; Identifier::try_new(name).err() == Some(why));
}
