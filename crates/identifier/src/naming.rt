// Making and reading identifiers.
ghost use Rattle.std.specs.Prelude.{◌≡◌, length};
ghost use Rattle.identifier.specs.Names.{valid_name};
ghost use Rattle.identifier.specs.Identifiers.{text, Named};

use super::class::{is_continue, is_start};
use super::identifier::Identifier;
use result::Refusal;

// The most bytes that an identifier has.
const LONGEST: usize = 32;

impl Identifier {
    // The bytes are a valid name, of whatever length.
    pub fn is_valid(name: &[u8]) -> bool
        ensures { result ≡ valid_name name.now }
    {
        match name {
            [first, rest @ ..] => is_start(*first) && rest.iter().all(|b| is_continue(*b)),
            [] => false,
        }
    }

    // The identifier with these bytes, if they are at most 32 and a valid name.
    pub fn try_new(name: &[u8]) -> Result<Identifier, Refusal>
        ensures { Named name.now result }
    {
        let len = name.len();
        if len > LONGEST {
            return Err(Refusal::NameTooLong);
        }
        if !Identifier::is_valid(name) {
            return Err(Refusal::MalformedIdentifier);
        }
        let mut bytes = [0; 32];
        bytes[..len].copy_from_slice(name);
        Ok(Identifier {
            len: len as u8,
            bytes,
        })
    }

    // How many bytes it has.
    pub fn len(&self) -> usize
        ensures { result ≡ length (text self.now) }
    {
        self.len as usize
    }

    // Its bytes.
    pub fn as_bytes(&self) -> &[u8]
        ensures { result.now ≡ text self.now }
    {
        &self.bytes[..self.len()]
    }
}
