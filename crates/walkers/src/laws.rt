// What holds of every walk over a store.
ghost use Rattle.std.specs.Prelude.{◌≡◌, List, reverse};
ghost use Rattle.orders.specs.declared.walk_result.WalkResult.{WalkResult};
ghost use Rattle.orders.specs.Logs.{AllAdvance, Seen, Shown, nodes as shown_nodes};
ghost use Rattle.records.specs.declared.ir_node.IRNode.{IRNode};
ghost use Rattle.records.specs.Children.{Lists};
ghost use Rattle.records.specs.Nodes.{parent};
ghost use Rattle.ir.specs.declared.context.Context.{Context};
ghost use Rattle.ir.specs.Stores.{nodes};
ghost use Rattle.walkers.specs.declared.config.Direction.TheVariants.{Forward, Reverse};
ghost use Rattle.walkers.specs.declared.config.Order.TheVariants.{PostOrder, PreOrder};
ghost use Rattle.walkers.specs.declared.config.TheConstants.{WALKCONFIG_POSTORDER_FORWARD, WALKCONFIG_POSTORDER_REVERSE, WALKCONFIG_PREORDER_FORWARD, WALKCONFIG_PREORDER_REVERSE};
ghost use Rattle.walkers.specs.declared.config.WalkConfig.{WalkConfig};
ghost use Rattle.walkers.specs.Configs.{as_parent, early, mirror};
ghost use Rattle.walkers.specs.Walks.{WalkedIn, WholeIn};

// The links of every store describe some lists, so what is promised for all of them is promised of some.
#[tactic(auto, using(crate::proofs::Stores::some_lists))]
pub fn lists_exist()
    ensures { (s : Context) → ∥ Lists (nodes s) ∥₁ }
{}

// Whatever the answers of a walk are, it shows no node twice and none outside the root or below a node of PreOrder that was answered
// Skip; and all others where no answer ended it.
#[tactic(auto, using(crate::proofs::WalkLaws::seen_once))]
pub fn seen_once<B>()
    ensures { (s : Context) (k : WalkConfig) (root : IRNode) (log : List (Shown IRNode B)) (r : WalkResult B) → WalkedIn s k root log r → ∥ Seen (parent (nodes s)) (early k) root log r ∥₁ }
{}

// The four constants have their order and direction at every node.
#[tactic(auto, using(crate::proofs::FourConfigs::preorder_forward, crate::proofs::FourConfigs::postorder_forward, crate::proofs::FourConfigs::preorder_reverse, crate::proofs::FourConfigs::postorder_reverse))]
pub fn presets()
    ensures preorder_forward { (n : IRNode) → as_parent WALKCONFIG_PREORDER_FORWARD n ≡ (PreOrder, Forward) }
    ensures postorder_forward { (n : IRNode) → as_parent WALKCONFIG_POSTORDER_FORWARD n ≡ (PostOrder, Forward) }
    ensures preorder_reverse { (n : IRNode) → as_parent WALKCONFIG_PREORDER_REVERSE n ≡ (PreOrder, Reverse) }
    ensures postorder_reverse { (n : IRNode) → as_parent WALKCONFIG_POSTORDER_REVERSE n ≡ (PostOrder, Reverse) }
{}

// The store and the configuration alone determine the whole order from a root.
pub fn one_whole()
    ensures { (s : Context) (k : WalkConfig) (root : IRNode) (ns ms : List IRNode) → WholeIn s k root ns → WholeIn s k root ms → ns ≡ ms }
{}

// The mirrored configuration gives the whole order from its end.
pub fn mirrored_whole()
    ensures { (s : Context) (k : WalkConfig) (root : IRNode) (ns ms : List IRNode) → WholeIn s k root ns → WholeIn s (mirror k) root ms → ms ≡ reverse ns }
{}

// Where every answer is to advance, the walk of the mirrored configuration shows the same nodes from the last to the first.
pub fn mirrored_walk<B, C>()
    ensures { (s : Context) (k : WalkConfig) (root : IRNode) (log : List (Shown IRNode B)) (r : WalkResult B) (back : List (Shown IRNode C)) (q : WalkResult C)
        → WalkedIn s k root log r → AllAdvance log → WalkedIn s (mirror k) root back q → AllAdvance back → shown_nodes back ≡ reverse (shown_nodes log) }
{}
