// The way of every search: from a start to the end of the entries, and then on from the front.
ghost use Rattle.std.specs.Prelude.{◌≤◌, true, false, length};
ghost use Rattle.table.specs.Search.{Scanned, Walked, Wanted};

use super::entry::{Entry, Hit, Scan};

// The first wanted key from `start` on to the end, and then from the front up to `end`; none after a free entry is looked at.
#[tactic(auto, using(crate::proofs::Searching::walked_lower))]
pub(crate) fn walk<K: Copy, V: Copy, F: Fn(usize, K) -> bool>(
    entries: &[Entry<K, V>],
    start: usize,
    end: usize,
    wanted: F,
) -> Scan<V>
    requires order { end ≤ start }
    requires within { start ≤ length entries.now }
    requires callable { F.IsAlwaysCallable wanted }
    ensures { Walked (λ i k. F.post wanted i k true) (λ i k. F.post wanted i k false) entries.now start end result }
{
    match scan(entries, start, entries.len(), &wanted) {
        Scan::Through => scan(entries, 0, end, &wanted),
        seen => seen,
    }
}

// The first wanted key among the entries from `from` up to `to`; none after a free entry is looked at.
fn scan<K: Copy, V: Copy, F: Fn(usize, K) -> bool>(
    entries: &[Entry<K, V>],
    from: usize,
    to: usize,
    wanted: &F,
) -> Scan<V>
    requires order { from ≤ to }
    requires within { to ≤ length entries.now }
    requires callable { F.IsAlwaysCallable wanted.now }
    ensures { Scanned (Wanted (λ i k. F.post wanted.now i k true) entries.now) (λ i k. F.post wanted.now i k false) entries.now from to result }
{
    for (passed, entry) in entries[from..to].iter().enumerate() {
        let place = from + passed;
        match *entry {
            Some((key, value)) => {
                if wanted(place, key) {
                    return Scan::Found(Hit { place, value });
                }
            }
            None => return Scan::Stopped(place),
        }
    }
    Scan::Through
}
