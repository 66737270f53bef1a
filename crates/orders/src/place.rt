// Where a walk stands.

// Before its first node, at a node that is shown before what lies below it, at one that is shown after it, or after its last node.
#[derive(Clone, Copy)]
pub enum At<N> {
    Start,
    Entering(N),
    Leaving(N),
    Ended,
}
