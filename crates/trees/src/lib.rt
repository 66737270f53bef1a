// Nodes that each stand in at most one other: what lies inside what. Theory alone, over any kind of node.
#![tactic(auto)]

ghost use Rattle.std.specs.Prelude.{◌≡◌, Some, Option};
ghost use Rattle.trees.specs.Climbs.{Acyclic, ContainsItself};

// Where every climb ends, no node contains itself.
pub fn nothing_contains_itself<N>()
    ensures { (p : N → Option N) → Acyclic p → (n : N) → ContainsItself p n → ⊥ }
{}
