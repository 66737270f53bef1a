// A gap of a list: the two nodes between which a node may stand, where it lies, and how its two sides are made to point to
// something else.
// Kept: that nodes are live and containers held are clauses here, and the store is a parameter, since it is the caller's type; and
// `set_forward` stands beside its mirror `set_backward`, since by a rule of the project each link has a setter of its own.
ghost use Rattle.std.specs.Prelude.{◌≡◌, true};
ghost use Rattle.linked_list.specs.Edits.{spot_live};
ghost use Rattle.linked_list.specs.Gaps.{Backward, Forward, Live?, after_spot, before_spot};

use crate::linked_list::LinkedList;
use crate::spot::Spot;

// Before a gap stands a node, or none at the head; after it stands a node, or none at the tail.
#[derive(Clone, Copy)]
pub(crate) struct Gap<N> {
    pub before: Option<N>,
    pub after: Option<N>,
}

impl<N: LinkedList> Gap<N> {
    // The gap at a spot: a node that is put at the spot stands in it.
    pub(crate) fn at(ctx: &N::Store, spot: Spot<N, N::ContainerType>) -> Gap<N>
        requires { spot_live (N.LinkedList.view ctx.now) spot ≡ true }
        ensures before { result.before ≡ before_spot (N.LinkedList.view ctx.now) spot }
        ensures after { result.after ≡ after_spot (N.LinkedList.view ctx.now) spot }
    {
        match spot {
            Spot::AtFront(c) => Gap {
                before: None,
                after: N::get_head(ctx, c),
            },
            Spot::AtBack(c) => Gap {
                before: N::get_tail(ctx, c),
                after: None,
            },
            Spot::Before(mark) => Gap {
                before: N::get_prev(ctx, mark),
                after: Some(mark),
            },
            Spot::After(mark) => Gap {
                before: Some(mark),
                after: N::get_next(ctx, mark),
            },
        }
    }

    // The gap that a node leaves.
    pub(crate) fn around(ctx: &N::Store, n: N) -> Gap<N>
        requires { (N.LinkedList.view ctx.now).live n ≡ true }
        ensures before { result.before ≡ (N.LinkedList.view ctx.now).prev n }
        ensures after { result.after ≡ (N.LinkedList.view ctx.now).next n }
    {
        Gap {
            before: N::get_prev(ctx, n),
            after: N::get_next(ctx, n),
        }
    }

    // Let what stands before the gap point on to `x`: the node, or where there is none the container's head.
    pub(crate) fn set_forward(self, ctx: &mut N::Store, c: N::ContainerType, x: Option<N>)
        requires container { (N.LinkedList.view ctx.old).held c ≡ true }
        requires node { Live? (N.LinkedList.view ctx.old) self.before }
        ensures sets { Forward (N.LinkedList.view ctx.old) (N.LinkedList.view ctx.new) c self.before x }
        ensures rest { N.LinkedList.rest ctx.new ≡ N.LinkedList.rest ctx.old }
    {
        match self.before {
            Some(a) => N::set_next(ctx, a, x),
            None => N::set_head(ctx, c, x),
        }
    }

    // Let what stands after the gap point back to `x`: the node, or where there is none the container's tail.
    pub(crate) fn set_backward(self, ctx: &mut N::Store, c: N::ContainerType, x: Option<N>)
        requires container { (N.LinkedList.view ctx.old).held c ≡ true }
        requires node { Live? (N.LinkedList.view ctx.old) self.after }
        ensures sets { Backward (N.LinkedList.view ctx.old) (N.LinkedList.view ctx.new) c self.after x }
        ensures rest { N.LinkedList.rest ctx.new ≡ N.LinkedList.rest ctx.old }
    {
        match self.after {
            Some(b) => N::set_prev(ctx, b, x),
            None => N::set_tail(ctx, c, x),
        }
    }
}
