// What is left of a list to be gone through, given by its two ends.

// The first and the last node that are left; both are none where nothing is left.
#[derive(Clone, Copy)]
pub struct Span<N> {
    pub front: Option<N>,
    pub back: Option<N>,
}

// One step into a span: the node that it gave, or none where nothing was left, and what is left after it.
#[derive(Clone, Copy)]
pub struct Step<N> {
    pub node: Option<N>,
    pub left: Span<N>,
}
