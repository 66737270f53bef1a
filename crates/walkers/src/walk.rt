// A walk that is held: it borrows the store while it stands.
ghost use Rattle.orders.specs.Places.{Fit};
ghost use Rattle.ir.specs.Stores.{nodes};
ghost use Rattle.walkers.specs.Links.{links};

use crate::config::WalkConfig;
use ir::Context;
use orders::At;
use records::IRNode;

// Where it stands on its way from the root; nothing else is kept of what it gave.
#[derive(Drop)]
pub struct Walk<'a> {
    pub(crate) context: &'a Context,
    pub(crate) config: WalkConfig,
    pub(crate) root: IRNode,
    pub(crate) at: At<IRNode>,
    ghost fits: { ∥ Fit (links (nodes context.now) config) root at ∥₁ },
}
