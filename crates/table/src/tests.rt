// The map as a holder uses it. The tests' keys hash to their own value, so that a test chooses where a key is looked for.
use super::entry::Key;
use super::map::{get, insert, remove};
use std::test::Fail;

#[derive(Clone, Copy, PartialEq, Eq)]
struct Small(u8);

impl Key for Small {
    ghost hashes = { λ k. k.0 };

    fn same(&self, other: &Small) -> bool {
        self == other
    }

    fn hash(&self) -> usize {
        self.0 as usize
    }
}

#[test]
fn insert_answers_the_old_value(rt: HostRuntime) -> Result<(), Fail> {
    let mut entries = [None; 4];
    assert_eq!(rt; insert(&mut entries, Small(1), 10u8)?, None);
    assert_eq!(rt; insert(&mut entries, Small(1), 11)?, Some(10));
    assert_eq!(rt; get(&entries, Small(1)), Some(11));
    assert_eq!(rt; get(&entries, Small(2)), None);
    Ok(())
}

#[test]
fn remove_answers_the_value_and_forgets_the_key(rt: HostRuntime) -> Result<(), Fail> {
    let mut entries = [None; 4];
    insert(&mut entries, Small(1), 10u8)?;
    assert_eq!(rt; remove(&mut entries, Small(1)), Some(10));
    assert_eq!(rt; remove(&mut entries, Small(1)), None);
    assert_eq!(rt; get(&entries, Small(1)), None);
    Ok(())
}

#[test]
fn a_full_map_refuses_new_keys_alone(rt: HostRuntime) -> Result<(), Fail> {
    let mut entries = [None; 2];
    insert(&mut entries, Small(0), 10u8)?;
    insert(&mut entries, Small(1), 11)?;
    assert!(rt; insert(&mut entries, Small(2), 12).is_err());
    assert_eq!(rt; insert(&mut entries, Small(1), 13)?, Some(11));
    assert_eq!(rt; get(&entries, Small(0)), Some(10));
    Ok(())
}

// 3, 7 and 11 are all looked for from the last entry on, so that 7 stands at the front until 3 goes.
#[test]
fn remove_leaves_a_colliding_key_in_reach(rt: HostRuntime) -> Result<(), Fail> {
    let mut entries = [None; 4];
    insert(&mut entries, Small(3), 10u8)?;
    insert(&mut entries, Small(7), 11)?;
    assert_eq!(rt; remove(&mut entries, Small(3)), Some(10));
    assert_eq!(rt; get(&entries, Small(7)), Some(11));
    assert_eq!(rt; insert(&mut entries, Small(11), 12)?, None);
    assert_eq!(rt; get(&entries, Small(11)), Some(12));
    Ok(())
}
