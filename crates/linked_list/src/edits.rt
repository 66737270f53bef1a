// The edits of linked lists: a node put into a list at either end or beside another, and taken out.
// They touch links, heads and tails alone.
// Kept: one insertion for each spot beside `insert`, since by a rule of the project these are the calls of a list; and that nodes are
// live and links describe lists are clauses and no facts of a type, and the store is a parameter, since the store is the caller's type,
// and its records are linked before they are a whole store.
ghost use Rattle.std.specs.Prelude.{◌≡◌, true, is_some, Some, None};
ghost use Rattle.linked_list.specs.Links.{Sound};
ghost use Rattle.linked_list.specs.Edits.{EditLaws, Inserts, Removes, spot_live, spot_in};
ghost use Rattle.linked_list.specs.declared.spot.Spot.TheVariants.{AtFront, AtBack, Before, After};

use crate::gap::Gap;
use crate::linked_list::LinkedList;
use crate::spot::Spot;

// Whether the node stands in a container.
pub fn is_linked<N: LinkedList>(ctx: &N::Store, n: N) -> bool
    requires node { (N.LinkedList.view ctx.now).live n ≡ true }
    ensures { result ≡ is_some ((N.LinkedList.view ctx.now).within n) }
{
    N::get_container(ctx, n).is_some()
}

// Put the node into the container at a spot of it. Every insertion is this one.
pub fn insert<N: LinkedList>(
    ctx: &mut N::Store,
    n: N,
    c: N::ContainerType,
    spot: Spot<N, N::ContainerType>,
)
    requires node { (N.LinkedList.view ctx.old).live n ≡ true }
    requires spot { spot_live (N.LinkedList.view ctx.old) spot ≡ true }
    requires into { spot_in (N.LinkedList.view ctx.old) spot ≡ Some c }
    requires loose { (N.LinkedList.view ctx.old).within n ≡ None }
    requires sound { Sound (N.LinkedList.view ctx.old) }
    ensures inserts { Inserts (N.LinkedList.view ctx.old) (N.LinkedList.view ctx.new) n c spot }
    ensures sound { Sound (N.LinkedList.view ctx.new) }
    ensures rest { N.LinkedList.rest ctx.new ≡ N.LinkedList.rest ctx.old }
{
    let gap = Gap::at(ctx, spot);
    gap.set_forward(ctx, c, Some(n));
    gap.set_backward(ctx, c, Some(n));
    N::set_prev(ctx, n, gap.before);
    N::set_next(ctx, n, gap.after);
    N::set_container(ctx, n, Some(c));
}

// Put the node into the container, as its first.
pub fn insert_at_front<N: LinkedList>(ctx: &mut N::Store, n: N, c: N::ContainerType)
    requires node { (N.LinkedList.view ctx.old).live n ≡ true }
    requires container { (N.LinkedList.view ctx.old).held c ≡ true }
    requires loose { (N.LinkedList.view ctx.old).within n ≡ None }
    requires sound { Sound (N.LinkedList.view ctx.old) }
    ensures inserts { Inserts (N.LinkedList.view ctx.old) (N.LinkedList.view ctx.new) n c (AtFront c) }
    ensures sound { Sound (N.LinkedList.view ctx.new) }
    ensures rest { N.LinkedList.rest ctx.new ≡ N.LinkedList.rest ctx.old }
{
    insert(ctx, n, c, Spot::AtFront(c));
}

// Put the node into the container, as its last.
pub fn insert_at_back<N: LinkedList>(ctx: &mut N::Store, n: N, c: N::ContainerType)
    requires node { (N.LinkedList.view ctx.old).live n ≡ true }
    requires container { (N.LinkedList.view ctx.old).held c ≡ true }
    requires loose { (N.LinkedList.view ctx.old).within n ≡ None }
    requires sound { Sound (N.LinkedList.view ctx.old) }
    ensures inserts { Inserts (N.LinkedList.view ctx.old) (N.LinkedList.view ctx.new) n c (AtBack c) }
    ensures sound { Sound (N.LinkedList.view ctx.new) }
    ensures rest { N.LinkedList.rest ctx.new ≡ N.LinkedList.rest ctx.old }
{
    insert(ctx, n, c, Spot::AtBack(c));
}

// Put the node into the mark's container, right before the mark. Where the mark stands in none, nothing is done.
pub fn insert_before<N: LinkedList>(ctx: &mut N::Store, n: N, mark: N)
    requires node { (N.LinkedList.view ctx.old).live n ≡ true }
    requires marked { (N.LinkedList.view ctx.old).live mark ≡ true }
    requires loose { (N.LinkedList.view ctx.old).within n ≡ None }
    requires sound { Sound (N.LinkedList.view ctx.old) }
    ensures inserts { (c : N.ContainerType) → (N.LinkedList.view ctx.old).within mark ≡ Some c → Inserts (N.LinkedList.view ctx.old) (N.LinkedList.view ctx.new) n c (Before mark) }
    ensures unlinked { (N.LinkedList.view ctx.old).within mark ≡ None → ctx.new ≡ ctx.old }
    ensures sound { Sound (N.LinkedList.view ctx.new) }
    ensures rest { N.LinkedList.rest ctx.new ≡ N.LinkedList.rest ctx.old }
{
    if let Some(c) = N::get_container(ctx, mark) {
        insert(ctx, n, c, Spot::Before(mark));
    }
}

// Put the node into the mark's container, right after the mark. Where the mark stands in none, nothing is done.
pub fn insert_after<N: LinkedList>(ctx: &mut N::Store, n: N, mark: N)
    requires node { (N.LinkedList.view ctx.old).live n ≡ true }
    requires marked { (N.LinkedList.view ctx.old).live mark ≡ true }
    requires loose { (N.LinkedList.view ctx.old).within n ≡ None }
    requires sound { Sound (N.LinkedList.view ctx.old) }
    ensures inserts { (c : N.ContainerType) → (N.LinkedList.view ctx.old).within mark ≡ Some c → Inserts (N.LinkedList.view ctx.old) (N.LinkedList.view ctx.new) n c (After mark) }
    ensures unlinked { (N.LinkedList.view ctx.old).within mark ≡ None → ctx.new ≡ ctx.old }
    ensures sound { Sound (N.LinkedList.view ctx.new) }
    ensures rest { N.LinkedList.rest ctx.new ≡ N.LinkedList.rest ctx.old }
{
    if let Some(c) = N::get_container(ctx, mark) {
        insert(ctx, n, c, Spot::After(mark));
    }
}

// Take the node out of its container. Where it stands in none, nothing is done.
pub fn unlink<N: LinkedList>(ctx: &mut N::Store, n: N)
    requires node { (N.LinkedList.view ctx.old).live n ≡ true }
    requires sound { Sound (N.LinkedList.view ctx.old) }
    ensures removes { (c : N.ContainerType) → (N.LinkedList.view ctx.old).within n ≡ Some c → Removes (N.LinkedList.view ctx.old) (N.LinkedList.view ctx.new) n c }
    ensures unlinked { (N.LinkedList.view ctx.old).within n ≡ None → ctx.new ≡ ctx.old }
    ensures sound { Sound (N.LinkedList.view ctx.new) }
    ensures rest { N.LinkedList.rest ctx.new ≡ N.LinkedList.rest ctx.old }
{
    if let Some(c) = N::get_container(ctx, n) {
        unlink_from(ctx, n, c);
    }
}

// The laws of the edits, for every kind of node: what an edit means for each list by itself.
#[tactic(auto, using(crate::proofs::Laws::laws))]
pub fn edit_laws<N, C>()
    ensures { EditLaws N C }
{}

// Take the node out of the container in which it stands.
fn unlink_from<N: LinkedList>(ctx: &mut N::Store, n: N, c: N::ContainerType)
    requires node { (N.LinkedList.view ctx.old).live n ≡ true }
    requires inside { (N.LinkedList.view ctx.old).within n ≡ Some c }
    requires sound { Sound (N.LinkedList.view ctx.old) }
    ensures removes { Removes (N.LinkedList.view ctx.old) (N.LinkedList.view ctx.new) n c }
    ensures sound { Sound (N.LinkedList.view ctx.new) }
    ensures rest { N.LinkedList.rest ctx.new ≡ N.LinkedList.rest ctx.old }
{
    let gap = Gap::around(ctx, n);
    gap.set_forward(ctx, c, gap.after);
    gap.set_backward(ctx, c, gap.before);
    N::set_prev(ctx, n, None);
    N::set_next(ctx, n, None);
    N::set_container(ctx, n, None);
}
