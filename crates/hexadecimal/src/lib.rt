// Hexadecimal text for people: digits in pairs, with white space, commas and comments between the pairs.
#![tactic(auto)]

mod class;
mod decoding;
mod error;
mod lines;
mod state;
mod step;
#[cfg(test)]
mod tests;

pub use decoding::decode;
pub use error::HexError;
pub use lines::lines_before;
