// Identifiers: which bytes are a valid name, and a valid name of at most 32 bytes, held inline.
#![tactic(auto)]

mod class;
mod identifier;
mod key;
mod naming;
#[cfg(test)]
mod tests;

pub use identifier::Identifier;
pub use key::eq_decides;
