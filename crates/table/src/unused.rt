// Theorems that the contracts of the map's calls hold together, each a function whose contract is the theorem.
ghost use Rattle.std.specs.Prelude.{◌≡◌, ℕ, false, List, length, replicate, is_ok, None, Option, Result};
ghost use Rattle.table.specs.declared.entry.Full.{Full};
ghost use Rattle.table.specs.Maps.{MapEntry, Probed, Maps, Inserted, Taken, used};

use super::entry::Key;

// Entries none of which was ever used are probed, and hold no key.
#[tactic(auto, using(crate::proofs::Laws::unused_used))]
pub fn unused_is_probed<K: Key, V>()
    ensures probed { (n : ℕ) → Probed {V = V} K.Key.hashes (replicate n None) }
    ensures holds { (n : ℕ) → used {K = K} {V = V} (replicate n None) ≡ 0 }
{}

// Where there are no entries nothing is found, and every insert is refused: what the three calls ensure leaves no other answer.
pub fn no_entries_no_keys<K: Key, V>()
    ensures gets { (es : List (MapEntry K V)) (k : K) (r : Option V) → length es ≡ 0 → (Probed K.Key.hashes es → Maps es k r) → r ≡ None }
    ensures inserts { (es fs : List (MapEntry K V)) (k : K) (v : V) (r : Result (Option V) Full) → length es ≡ 0 → Inserted K.Key.hashes es k v r fs → is_ok r ≡ false }
    ensures removes { (es fs : List (MapEntry K V)) (k : K) (r : Option V) → length es ≡ 0 → Taken K.Key.hashes es k r fs → r ≡ None }
{}
