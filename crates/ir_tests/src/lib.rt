// The tests of the store as its users meet it; a crate of their own, since a crate with tests is proved twice.
#![tactic(auto)]

#[cfg(test)]
mod linking;
#[cfg(test)]
mod making;
#[cfg(test)]
mod tables;
