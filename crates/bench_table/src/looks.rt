// Counts the entries that the search for a key that is not there looks at.
ghost use Rattle.std.specs.Prelude.{◌*◌, ◌≤◌};

use super::key::Source;
use super::pair::Pair;
use table::{Entry, Key};

// How many absent keys are looked for.
pub const MISSES: u32 = 10_000;

// From the key's hash on to the first free entry, that one too; 512 at most.
fn looks(entries: &[Entry<Pair, u32>], key: Pair) -> u32
    ensures { result ≤ 512 }
{
    let n = entries.len();
    if n == 0 {
        return 0;
    }
    let (front, back) = entries.split_at(key.hash() % n);
    back.iter()
        .position(|e| e.is_none())
        .or_else(|| {
            front
                .iter()
                .position(|e| e.is_none())
                .map(|passed| back.len().saturating_add(passed))
        })
        .map_or(512, |passed| passed.min(511) as u32 + 1)
}

// The looks of 10,000 absent keys in all: `source` makes pairs that no entry has.
// Kept: a `sum` over `map` was tried, and that it fits 32 bits was not proved.
pub fn looks_of_misses(entries: &[Entry<Pair, u32>], source: &mut Source) -> u32
    ensures { result ≤ 512 * 10000 }
{
    let mut total = 0;
    for _ in 0..MISSES {
        total += looks(entries, source.pair());
    }
    total
}
