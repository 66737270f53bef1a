// The entries of a map and the keys that it takes; nothing here reads or writes a map.
ghost use Rattle.std.specs.Prelude.{◌≡◌, ℕ, MatchBool, ◌≢◌};
ghost use Rattle.table.specs.Search.{hit_of};

// One place of a map: free, or used by a key with its value.
pub type Entry<K, V> = Option<(K, V)>;

// The refusal of a new key where every entry is used.
#[derive(Clone, Copy, Debug)]
pub struct Full;

// Where a search found the key that it looked for, and the key's value.
// Kept: two fields, of which the place is where and the value what: neither is a count or a flag of the other.
#[derive(Clone, Copy)]
pub struct Hit<V> {
    pub place: usize,
    pub value: V,
}

// How a search ended: where it found what it looked for, at a free entry, or past the last of its entries.
#[derive(Clone, Copy)]
pub enum Scan<V> {
    Found(Hit<V>),
    Stopped(usize),
    Through,
}

impl<V> Scan<V> {
    // What was found, if anything was.
    pub fn found(self) -> Option<Hit<V>>
    where
        V: Copy,
        ensures { result ≡ hit_of self }
    {
        match self {
            Scan::Found(x) => Some(x),
            Scan::Stopped(_) | Scan::Through => None,
        }
    }
}

// What a map asks of a key: `same` decides whether two keys are one value, and the hash is a function of the value, so
// that equal keys hash alike.
pub trait Key {
    ghost hashes: { Self → ℕ };

    // Whether the two keys are the same value.
    fn same(&self, other: &Self) -> bool
        ensures { MatchBool result (self.now ≡ other.now) (self.now ≢ other.now) };

    // The key's hash; a search starts at its remainder by the number of entries.
    fn hash(&self) -> usize
        ensures { result ≡ hashes self.now };
}
