// The calls of a map: they touch the entries that they are lent, and nothing else. A search starts at the key's hash and
// ends at the key or at a free entry.
// Kept: entries and key as parameters, since by a rule of the project the entries are lent at each call.
ghost use Rattle.std.specs.Prelude.{◌≡◌, ◌<◌, true, length, is_ok, Some, None};
ghost use Rattle.table.specs.Maps.{Probed, Maps, used, Inserted, Taken};
ghost use Rattle.table.specs.Search.{At, Searched};

use super::entry::{Entry, Full, Hit, Key, Scan};
use super::shift::close;
use super::walk::walk;

// The value of the key.
pub fn get<K: Key + Copy, V: Copy>(entries: &[Entry<K, V>], key: K) -> Option<V>
    ensures meaning { Probed K.Key.hashes entries.now → Maps entries.now key result }
    ensures stands { (v : V) → result ≡ Some v → Maps entries.now key (Some v) }
{
    find(entries, key).found().map(|x| x.value)
}

// Gives the key this value, and answers what it had.
pub fn insert<K: Key + Copy, V: Copy>(
    entries: &mut [Entry<K, V>],
    key: K,
    value: V,
) -> Result<Option<V>, Full>
    ensures meaning { Inserted K.Key.hashes entries.old key value result entries.new }
    ensures fits { used entries.old < length entries.old → is_ok result ≡ true }
{
    match find(entries, key) {
        Scan::Found(x) => {
            entries[x.place] = Some((key, value));
            Ok(Some(x.value))
        }
        Scan::Stopped(free) => {
            entries[free] = Some((key, value));
            Ok(None)
        }
        Scan::Through => Err(Full),
    }
}

// Takes the key away, and answers what it had.
pub fn remove<K: Key + Copy, V: Copy>(entries: &mut [Entry<K, V>], key: K) -> Option<V>
    ensures { Taken K.Key.hashes entries.old key result entries.new }
{
    let x = find(entries, key).found()?;
    take_out(entries, x, key);
    Some(x.value)
}

// Frees the entry of the key, which stands at `x`, and closes the hole.
fn take_out<K: Key + Copy, V: Copy>(entries: &mut [Entry<K, V>], x: Hit<V>, key: K)
    requires { At entries.old key x.place x.value }
    ensures { Taken K.Key.hashes entries.old key (Some x.value) entries.new }
{
    entries[x.place] = None;
    close(entries, x.place);
}

// The key's place, or the free entry where the search for it ends: from its hash on to the end, and then from the front.
fn find<K: Key + Copy, V: Copy>(entries: &[Entry<K, V>], key: K) -> Scan<V>
    ensures { Searched K.Key.hashes entries.now key result }
{
    let n = entries.len();
    if n == 0 {
        return Scan::Through;
    }
    let home = key.hash() % n;
    walk(entries, home, home, |_, k| k.same(&key))
}
