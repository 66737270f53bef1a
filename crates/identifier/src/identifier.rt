// A valid name, held inline.
ghost use Rattle.std.specs.Prelude.{◌≡◌, ◌-◌, ◌≤◌, true, ◌++◌, length, take, replicate};
ghost use Rattle.identifier.specs.Names.{valid_name};

// A name of at most 32 bytes: the first `len` of its bytes are the name, and the others are 0.
// Kept: bytes with a length beside them, since by a rule of the project a name is held inline; the kit's `ArrayString` holds any text,
// and that the bytes are a valid name, and 0 past it, is what this type says.
#[derive(Clone, Copy, PartialEq, Eq)]
pub struct Identifier {
    pub(crate) len: u8,
    pub(crate) bytes: [u8; 32],
    ghost long: { length bytes ≡ 32 },
    ghost within: { len ≤ 32 },
    ghost valid: { valid_name (take len bytes) ≡ true },
    ghost padded: { bytes ≡ take len bytes ++ replicate (32 - len) 0 },
}
