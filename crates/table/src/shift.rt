// Closes the hole that a removed key leaves: no free entry may stand on the way from a key's hash to its place.
ghost use Rattle.std.specs.Prelude.{◌≡◌, ℕ, ◌<◌, length, None, MatchBool, MatchOption};
ghost use Rattle.table.specs.Maps.{Before, entry_at};
ghost use Rattle.table.specs.Shift.{CutOff, Closed, Cuts, Spares, Shifted};

use super::entry::{Entry, Key};
use super::walk::walk;

// Moves a key that the hole cuts off from its hash into the hole, which leaves a hole where it stood, until no key is cut off.
pub(crate) fn close<K: Key + Copy, V: Copy>(entries: &mut [Entry<K, V>], first: usize)
    requires within { first < length entries.old }
    requires free { entry_at entries.old first ≡ None }
    ensures { Shifted K.Key.hashes entries.old first entries.new }
{
    let mut hole = first;
    'moves: while let Some(place) = next_cut_off(entries, hole) {
        entries.swap(hole, place);
        hole = place;
    }
}

// The place of the first key that the hole cuts off: after the hole to the end, and then from the front to the hole.
fn next_cut_off<K: Key + Copy, V: Copy>(entries: &[Entry<K, V>], hole: usize) -> Option<usize>
    requires { hole < length entries.now }
    ensures { MatchOption result (Closed K.Key.hashes entries.now hole) (CutOff K.Key.hashes entries.now hole) }
{
    let n = entries.len();
    let seen = walk(
        entries,
        hole + 1,
        hole,
        |place, key| is_cut_off(n, hole, place, key),
    );
    seen.found().map(|x| x.place)
}

// Whether the hole cuts off the key, which stands at `place` among `n` entries.
fn is_cut_off<K: Key + Copy>(n: usize, hole: usize, place: usize, key: K) -> bool
    requires { hole < n }
    ensures { MatchBool result (Cuts K.Key.hashes n hole place key) (Spares K.Key.hashes n hole place key) }
{
    comes_before(key.hash() % n, hole, place)
}

// Whether `j` comes before `i` on the way round the entries from `home`.
fn comes_before(home: usize, j: usize, i: usize) -> bool
    ensures { (n : ℕ) → j < n → MatchBool result (Before n home j i) (Before n home j i → ⊥) }
{
    if home <= i {
        home <= j && j < i
    } else {
        home <= j || j < i
    }
}
