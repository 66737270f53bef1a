// Measures how many entries a search looks at in a map of 512 entries with 256 keys: as filled, and after 5,000 keys were
// replaced by others.
#![tactic(auto)]

mod key;
mod looks;
mod pair;

ghost use Rattle.std.specs.Prelude.{◌≡◌, ◌<◌, ◌≤◌, length, codes};

use key::Source;
use looks::{MISSES, looks_of_misses};
use pair::Pair;
use std::io;
use table::{Entry, Full, get, insert, remove};

// Gives each of the keys a fresh pair, and puts it into the map.
fn fill(
    entries: &mut [Entry<Pair, u32>],
    keys: &mut [Pair],
    source: &mut Source,
) -> Result<(), Full> {
    for key in keys.iter_mut() {
        *key = source.pair();
        let _ = insert(entries, *key, 1)?;
    }
    Ok(())
}

// Takes one of the keys out of the map and puts a fresh pair in, many times.
fn churn(
    entries: &mut [Entry<Pair, u32>],
    keys: &mut [Pair],
    source: &mut Source,
    times: u32,
) -> Result<(), Full>
    requires { 0 < length keys.old }
{
    for _ in 0..times {
        let i = source.number() as usize % keys.len();
        let _ = remove(entries, keys[i]);
        let fresh = source.pair();
        keys[i] = fresh;
        let _ = insert(entries, fresh, 1)?;
    }
    Ok(())
}

// How many of the keys the map has.
fn found(entries: &[Entry<Pair, u32>], keys: &[Pair]) -> usize
    ensures { result ≤ length keys.now }
{
    keys.iter()
        .filter(|key| get(entries, **key).is_some())
        .count()
}

// Whether so many looks are few enough, in words.
fn verdict(looks: u32, most: u32) -> &'static str
    ensures { ((looks ≤ most → result.now ≡ codes "ok")) × ((most < looks → result.now ≡ codes "too many")) }
{
    if looks <= most { "ok" } else { "too many" }
}

// Prints how many entries a miss looks at on average, over 10,000 misses, and whether that is few enough.
fn report(
    rt: &impl Print,
    when: &str,
    entries: &[Entry<Pair, u32>],
    keys: &[Pair],
    most: u32,
) -> io::Result<()> {
    let mut absent = Source {
        state: 2024,
        name: 1 << 31,
    };
    let looks = looks_of_misses(entries, &mut absent) * 100 / MISSES;
    let there = found(entries, keys);
    let say = verdict(looks, most);
    println!(rt; "{when}: {there} keys, {looks} looks in 100 misses, at most {most}: {say}")
}

fn main(rt: HostRuntime) -> io::Result<()> {
    let mut entries = [None; 512];
    let mut keys = [Pair { table: 0, name: 0 }; 256];
    let mut source = Source { state: 7, name: 0 };
    if fill(&mut entries, &mut keys, &mut source).is_err() {
        return println!(rt; "no room");
    }
    report(&rt, "filled", &entries, &keys, 400)?;
    if churn(&mut entries, &mut keys, &mut source, 5000).is_err() {
        return println!(rt; "no room");
    }
    report(&rt, "5000 keys replaced", &entries, &keys, 800)
}
