// A handle: a place and the version at which it was taken.

// Any value may be handed in: one whose place is not in use at its version is dead.
// Kept: a place and a version, which is what a handle is by the rules of the project.
#[derive(Clone, Copy, PartialEq, Eq)]
pub struct Handle {
    pub place: usize,
    pub version: u32,
}
