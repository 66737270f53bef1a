// Reading any node: its record, whether it is live, and the node in which it stands.
ghost use Rattle.std.specs.Prelude.{◌≡◌};
ghost use Rattle.arena.specs.Pools.{live};
ghost use Rattle.arena.specs.Shelves.{at};
ghost use Rattle.records.specs.Nodes.{parent};
ghost use Rattle.ir.specs.Stores.{nodes};

use crate::context::Context;
use records::{IRNode, Ptr};

impl Context {
    // The record that a live handle names.
    pub fn get<P: Ptr>(&self, p: P) -> Option<P::Record>
        ensures { result ≡ at (P.table (nodes self.now)) (P.handle p) }
    {
        self.tables.forest().get(p)
    }

    // Whether the handle is live.
    pub fn is_live<P: Ptr>(&self, p: P) -> bool
        ensures { result ≡ live (P.table (nodes self.now)).pool (P.handle p) }
    {
        self.tables.forest().is_live(p)
    }

    // The node in which a node stands, if it stands in one.
    pub fn parent(&self, node: IRNode) -> Option<IRNode>
        ensures { result ≡ parent (nodes self.now) node }
    {
        self.tables.forest().parent(node)
    }
}
