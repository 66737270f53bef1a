// The tests of walks as their users meet them; a crate of their own, since a crate with tests is proved twice.
#![tactic(auto)]

#[cfg(test)]
mod digits;
#[cfg(test)]
mod tables;
#[cfg(test)]
mod walking;
