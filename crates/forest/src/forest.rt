// The store of operations, blocks and regions; its records are reached in this crate alone.
ghost use Rattle.linked_list.specs.Links.{Sound};
ghost use Rattle.trees.specs.Climbs.{Acyclic};
ghost use Rattle.records.specs.Models.{tables};
ghost use Rattle.records.specs.Nodes.{Owned, parent};
ghost use Rattle.records.specs.Views.{block_view, op_view};

use records::Records;

// The records of all live nodes. Their links always describe lists of children: a node stands in at most one, and once.
// Operations and their regions know each other, and nothing contains itself.
#[derive(Drop)]
pub struct Forest {
    pub(crate) records: Records,
    ghost oplists: { Sound (op_view records) },
    ghost blocklists: { Sound (block_view records) },
    ghost owned: { ∥ Owned (tables records) ∥₁ },
    ghost acyclic: { Acyclic (parent (tables records)) },
}
