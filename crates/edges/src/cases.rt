// The edge cases hold.
ghost use Rattle.edges.specs.EdgeCases.{EdgeCases};

// Whatever the store, and whatever a visitor says when it ends a walk.
pub fn edge_cases<B>()
    ensures { EdgeCases B }
{}
