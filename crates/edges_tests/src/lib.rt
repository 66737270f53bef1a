// The edge cases, as a user of the store meets them; a crate of their own, since a crate with tests is proved twice.
#![tactic(auto)]

#[cfg(test)]
mod cases;
#[cfg(test)]
mod recorder;
#[cfg(test)]
mod refusing;
