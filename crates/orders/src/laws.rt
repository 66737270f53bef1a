// What holds of every order and of every walk.
ghost use Rattle.std.specs.Prelude.{◌≡◌, Bool, not, List, reverse, Option};
ghost use Rattle.orders.specs.declared.walk_result.WalkResult.{WalkResult};
ghost use Rattle.orders.specs.declared.walk_result.WalkResult.TheVariants.{Advance};
ghost use Rattle.orders.specs.Order.{Orders};
ghost use Rattle.orders.specs.Logs.{Shown, nodes, AllAdvance, Seen, Whole, Walked};

// The nodes alone determine what is shown.
pub fn one_order<N>()
    ensures { (early : N → Bool) (children : N → List N) (ns xs ys : List N) → Orders early children ns xs → Orders early children ns ys → xs ≡ ys }
{}

// Where every order and every direction is the other way, the same nodes are shown from the last to the first.
pub fn mirrored<N>()
    ensures { (early late : N → Bool) (children back : N → List N) → ((n : N) → late n ≡ not (early n)) → ((n : N) → back n ≡ reverse (children n)) → (ns xs ys : List N) → Orders early children ns xs → Orders late back (reverse ns) ys → ys ≡ reverse xs }
{}

// A walk to which every answer is to advance shows the whole order: each node within the root once.
pub fn one_walk<N, B>()
    ensures { (p : N → Option N) (early : N → Bool) (children : N → List N) (root : N) (log : List (Shown N B)) (r : WalkResult B) → Walked p early children root log r → AllAdvance log → Whole p early children root (nodes log) × (r ≡ Advance) }
{}

// What every walk shows, whatever is answered.
pub fn seen_once<N, B>()
    ensures { (p : N → Option N) (early : N → Bool) (children : N → List N) (root : N) (log : List (Shown N B)) (r : WalkResult B) → Walked p early children root log r → Seen p early root log r }
{}

// Where to every node of two walks the answer is to advance, and one reads every order and direction the other way, each shows
// the nodes of the other from the last to the first.
pub fn mirrored_walk<N, B, C>()
    ensures { (p : N → Option N) (early late : N → Bool) (children back : N → List N) → ((n : N) → late n ≡ not (early n)) → ((n : N) → back n ≡ reverse (children n)) → (root : N) (log : List (Shown N B)) (r : WalkResult B) (log' : List (Shown N C)) (r' : WalkResult C) → Walked p early children root log r → AllAdvance log → Walked p late back root log' r' → AllAdvance log' → nodes log' ≡ reverse (nodes log) }
{}
