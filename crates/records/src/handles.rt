// The three kinds of handle. Any value may be handed in; a dead one is refused.
// Kept: each is a type of its own, a rule of the project, so that one is never taken for another.
use arena::Handle;

// Where a handle that names nothing points: no place is ever taken at version 0.
pub(crate) const NOWHERE: Handle = Handle {
    place: 0,
    version: 0,
};

// Names an operation.
#[derive(Clone, Copy, PartialEq, Eq)]
pub struct OpPtr {
    pub handle: Handle,
}

// Names a block.
#[derive(Clone, Copy, PartialEq, Eq)]
pub struct BlockPtr {
    pub handle: Handle,
}

// Names a region.
#[derive(Clone, Copy, PartialEq, Eq)]
pub struct RegionPtr {
    pub handle: Handle,
}
