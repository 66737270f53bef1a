// What a visitor answers to a node that it was shown.

// Go on; go on without what lies below the node; or end the walk with a value.
#[derive(Clone, Copy, Drop)]
pub enum WalkResult<B> {
    Advance,
    Skip,
    Break(B),
}
