// The names of the symbols.
use std::alloc::{AllocError, Global};

// A name: the same for a number and for the odd one after it, since each stands in a table of its own.
pub type Name = [u8; 8];

// The name of a symbol by its number, of which three digits count.
fn name(symbol: u32) -> Name {
    let number = symbol / 2;
    let digit = |n: u32| b'0' + (n % 10) as u8;
    [
        b'n',
        b'a',
        b'm',
        b'e',
        b'_',
        digit(number / 100),
        digit(number / 10),
        digit(number),
    ]
}

// The names of so many symbols.
pub fn make_names(heap: Global, symbols: u32) -> Result<Vec<Name>, AllocError> {
    let mut names = Vec::new(heap);
    for symbol in 0..symbols {
        names.push(name(symbol))?;
    }
    Ok(names)
}
