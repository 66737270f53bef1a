// Going through a list from both ends. Reads links, and writes nothing: from the front it reads `next` alone.
// Kept: what a span holds is a clause here and no fact of its type, since it speaks of the store beside the span.
ghost use Rattle.std.specs.Prelude.{◌≡◌, true, List, Some, None, ◌≢◌};
ghost use Rattle.linked_list.specs.Links.{Holds, Sound};
ghost use Rattle.linked_list.specs.Spans.{Spans, Spanned, FromFront, FromBack};
ghost use Rattle.linked_list.specs.Draws.{EachOnce};

use crate::linked_list::LinkedList;
use crate::span::{Span, Step};

// The whole list of the container.
#[tactic(auto, using(crate::proofs::Steps::whole_spans, crate::proofs::Steps::whole_spanned))]
pub fn whole<N: LinkedList>(ctx: &N::Store, c: N::ContainerType) -> Span<N>
    requires container { (N.LinkedList.view ctx.now).held c ≡ true }
    requires sound { Sound (N.LinkedList.view ctx.now) }
    ensures spans { (L : N.ContainerType → List N) → Holds (N.LinkedList.view ctx.now) L → Spans (N.LinkedList.view ctx.now) c (L c) result }
    ensures spanned { Spanned (N.LinkedList.view ctx.now) result }
{
    Span {
        front: N::get_head(ctx, c),
        back: N::get_tail(ctx, c),
    }
}

// Take the first of what is left.
// Kept: beside `step_back` and, below, `past_front` beside `past_back`, since going forward reads `next` alone, a rule of the project,
// and one step over both ways would have to be told which link to read.
pub fn step_front<N: LinkedList>(ctx: &N::Store, span: Span<N>) -> Step<N>
    requires spanned { Spanned (N.LinkedList.view ctx.now) span }
    ensures steps { FromFront (N.LinkedList.view ctx.now) span result }
    ensures spanned { Spanned (N.LinkedList.view ctx.now) result.left }
{
    match span.front {
        Some(n) => Step {
            node: Some(n),
            left: past_front(ctx, n, span.back),
        },
        None => Step {
            node: None,
            left: span,
        },
    }
}

// Take the last of what is left.
pub fn step_back<N: LinkedList>(ctx: &N::Store, span: Span<N>) -> Step<N>
    requires spanned { Spanned (N.LinkedList.view ctx.now) span }
    ensures steps { FromBack (N.LinkedList.view ctx.now) span result }
    ensures spanned { Spanned (N.LinkedList.view ctx.now) result.left }
{
    match span.back {
        Some(n) => Step {
            node: Some(n),
            left: past_back(ctx, n, span.front),
        },
        None => Step {
            node: None,
            left: span,
        },
    }
}

// The law of the steps, for every store: mixed in any way, they give each node once, then none.
pub fn each_once<N: LinkedList>()
    ensures { EachOnce N N.ContainerType }
{}

// What is left after the first node `n` of a span that ends at `back`.
fn past_front<N: LinkedList>(ctx: &N::Store, n: N, back: Option<N>) -> Span<N>
    requires { (N.LinkedList.view ctx.now).live n ≡ true }
    ensures end { back ≡ Some n → (result.front ≡ None) × (result.back ≡ None) }
    ensures on { (back ≢ Some n) → (result.front ≡ (N.LinkedList.view ctx.now).next n) × (result.back ≡ back) }
{
    if back.is_some_and(|b| N::same(b, n)) {
        return Span {
            front: None,
            back: None,
        };
    }
    Span {
        front: N::get_next(ctx, n),
        back,
    }
}

// What is left before the last node `n` of a span that begins at `front`.
fn past_back<N: LinkedList>(ctx: &N::Store, n: N, front: Option<N>) -> Span<N>
    requires { (N.LinkedList.view ctx.now).live n ≡ true }
    ensures end { front ≡ Some n → (result.front ≡ None) × (result.back ≡ None) }
    ensures on { (front ≢ Some n) → (result.front ≡ front) × (result.back ≡ (N.LinkedList.view ctx.now).prev n) }
{
    if front.is_some_and(|f| N::same(f, n)) {
        return Span {
            front: None,
            back: None,
        };
    }
    Span {
        front,
        back: N::get_prev(ctx, n),
    }
}
