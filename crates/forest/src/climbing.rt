// What stands in what: the parent of a node, what lies inside a node, and which blocks and regions are a table's.
// Kept: `block_of` beside `region_of`, each a line: they answer for dead handles too, which `get_container` of the link trait does
// not, and a trait for that one field is no plainer.
ghost use Rattle.std.specs.Prelude.{◌≡◌, true, false, Some};
ghost use Rattle.trees.specs.Climbs.{Within};
ghost use Rattle.records.specs.Nodes.{is_body, is_symbol, is_table, of_table, owner, parent, table_bound};
ghost use Rattle.records.specs.Views.{block_links, op_links};
ghost use Rattle.forest.specs.Forests.{model};

use crate::forest::Forest;
use records::{BlockPtr, IRNode, OpPtr, RegionPtr};

impl Forest {
    // The block in which an operation stands.
    pub fn block_of(&self, op: OpPtr) -> Option<BlockPtr>
        ensures { result ≡ (op_links (model self.now)).within op }
    {
        self.records.get(op)?.container
    }

    // The region in which a block stands.
    pub fn region_of(&self, block: BlockPtr) -> Option<RegionPtr>
        ensures { result ≡ (block_links (model self.now)).within block }
    {
        self.records.get(block)?.container
    }

    // The operation to which a region belongs.
    pub fn owner_of(&self, region: RegionPtr) -> Option<OpPtr>
        ensures { result ≡ owner (model self.now) region }
    {
        Some(self.records.get(region)?.parent_op)
    }

    // Whether the operation is a symbol.
    pub fn is_symbol(&self, op: OpPtr) -> bool
        ensures { result ≡ is_symbol (model self.now) op }
    {
        self.records
            .get(op)
            .is_some_and(|operation| operation.kind.symbol)
    }

    // Whether the operation is a table.
    pub fn is_table(&self, op: OpPtr) -> bool
        ensures { result ≡ is_table (model self.now) op }
    {
        self.records
            .get(op)
            .is_some_and(|operation| operation.kind.table)
    }

    // Whether the region belongs to a table.
    pub fn is_of_table(&self, region: RegionPtr) -> bool
        ensures { result ≡ of_table (model self.now) region }
    {
        self.owner_of(region).is_some_and(|op| self.is_table(op))
    }

    // Whether the block is the body of a table.
    pub fn is_body(&self, block: BlockPtr) -> bool
        ensures { result ≡ is_body (model self.now) block }
    {
        self.region_of(block)
            .is_some_and(|region| self.is_of_table(region))
    }

    // Whether the operation is a symbol and the block the body of a table.
    pub fn is_table_bound(&self, op: OpPtr, block: BlockPtr) -> bool
        ensures { result ≡ table_bound (model self.now) op (Some block) }
    {
        self.is_symbol(op) && self.is_body(block)
    }

    // Whether the operation is a symbol directly in the body of a table.
    pub fn is_bound(&self, op: OpPtr) -> bool
        ensures { result ≡ table_bound (model self.now) op ((op_links (model self.now)).within op) }
    {
        self.block_of(op)
            .is_some_and(|block| self.is_table_bound(op, block))
    }

    // The node in which a node stands.
    pub fn parent(&self, node: IRNode) -> Option<IRNode>
        ensures { result ≡ parent (model self.now) node }
    {
        match node {
            IRNode::Operation(op) => self.block_of(op).map(IRNode::BasicBlock),
            IRNode::BasicBlock(block) => self.region_of(block).map(IRNode::Region),
            IRNode::Region(region) => self.owner_of(region).map(IRNode::Operation),
        }
    }

    // Whether the node is the outer one or lies inside it: climbs from the node until it meets the outer one.
    pub fn contains(&self, outer: IRNode, node: IRNode) -> bool
        ensures yes { result ≡ true → Within (parent (model self.now)) outer node }
        ensures no { result ≡ false → Within (parent (model self.now)) outer node → ⊥ }
    {
        let mut at = Some(node);
        'climb: while let Some(here) = at {
            if here == outer {
                return true;
            }
            at = self.parent(here);
        }
        false
    }
}
