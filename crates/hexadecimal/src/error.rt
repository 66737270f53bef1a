// Why a text is not decoded.
use thiserror::Error;

// Where a text goes wrong, as a place among its bytes; or no memory for what it means.
#[derive(Clone, Copy, PartialEq, Eq, Debug, Drop, Error)]
pub enum HexError {
    // The byte at this place is no digit, and may not stand between pairs of digits either.
    #[error("not a hexadecimal digit")]
    NotHex { place: usize },
    // No digit follows right after the digit at this place, which would be the first of a pair.
    #[error("a digit alone, where two make a byte")]
    HalfByte { place: usize },
    // There is no memory for the bytes.
    #[error("no memory for the bytes")]
    NoMemory,
}
