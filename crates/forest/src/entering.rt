// What the calls on operations and on blocks have in common: what a spot names, which container a node enters or leaves, and
// all children of a container.
// Kept: a spot is asked three things, each by a match of its own, and the first two in the order of their refusals: one answer for all
// would hold an option in a result, and is no plainer.
ghost use Rattle.std.specs.Prelude.{◌≡◌, true, MatchResult};
ghost use Rattle.linked_list.specs.Edits.{spot_in, spot_live};
ghost use Rattle.linked_list.specs.Links.{Sound};
ghost use Rattle.linked_list.specs.Spans.{Spanned};
ghost use Rattle.result.specs.Rows.{NoRow, Uppermost};
ghost use Rattle.forest.specs.Linkings.{Enters, Leaves, spot_node};
ghost use Rattle.forest.specs.Iters.{Whole, iter_rows};

use crate::child::Child;
use linked_list::{Span, Spot, whole};
use records::{IRNode, Records};
use result::Refusal;

// What a spot names: a container, or a node as its mark.
pub(crate) fn target<N: Child>(spot: Spot<N, N::ContainerType>) -> IRNode
    ensures { result ≡ spot_node N.inner N.outer spot }
{
    match spot {
        Spot::AtFront(c) | Spot::AtBack(c) => N::container_node(c),
        Spot::Before(mark) | Spot::After(mark) => N::node(mark),
    }
}

// Whether what a spot names is live.
fn has_spot<N: Child>(records: &Records, spot: Spot<N, N::ContainerType>) -> bool
    ensures { result ≡ spot_live (N.view records.now) spot }
{
    match spot {
        Spot::AtFront(c) | Spot::AtBack(c) => N::is_held(records, c),
        Spot::Before(mark) | Spot::After(mark) => N::is_live(records, mark),
    }
}

// The container of a spot, or none where the mark stands in none.
fn container_at<N: Child>(
    records: &Records,
    spot: Spot<N, N::ContainerType>,
) -> Option<N::ContainerType>
    requires { spot_live (N.view records.now) spot ≡ true }
    ensures { result ≡ spot_in (N.view records.now) spot }
{
    match spot {
        Spot::AtFront(c) | Spot::AtBack(c) => Some(c),
        Spot::Before(mark) | Spot::After(mark) => N::get_container(records, mark),
    }
}

// The container that a node enters at a spot.
pub(crate) fn entered<N: Child>(
    records: &Records,
    n: N,
    spot: Spot<N, N::ContainerType>,
) -> Result<N::ContainerType, Refusal>
    ensures { Enters (N.view records.now) n spot result }
{
    if !N::is_live(records, n) || !has_spot(records, spot) {
        return Err(Refusal::Dangling);
    }
    if N::get_container(records, n).is_some() {
        return Err(Refusal::AlreadyLinked);
    }
    container_at(records, spot).ok_or(Refusal::MarkNotLinked)
}

// The container that a node leaves.
pub(crate) fn container<N: Child>(records: &Records, n: N) -> Result<N::ContainerType, Refusal>
    ensures { Leaves (N.view records.now) n result }
{
    if !N::is_live(records, n) {
        return Err(Refusal::Dangling);
    }
    N::get_container(records, n).ok_or(Refusal::NotLinked)
}

// All children of a container.
pub(crate) fn children<N: Child>(records: &Records, c: N::ContainerType) -> Result<Span<N>, Refusal>
    requires { Sound (N.view records.now) }
    ensures { MatchResult result
        (λ left. NoRow (iter_rows (N.view records.now) c) × Whole (N.view records.now) c left × Spanned (N.view records.now) left)
        (λ e. Uppermost (iter_rows (N.view records.now) c) e) }
{
    if !N::is_held(records, c) {
        return Err(Refusal::Dangling);
    }
    Ok(whole(records, c))
}
