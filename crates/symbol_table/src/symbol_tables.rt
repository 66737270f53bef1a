// The nodes of a store with the mappings of its symbol tables. Both are reached in this crate alone.
ghost use Rattle.forest.specs.Forests.{model};
ghost use Rattle.mappings.specs.Held.{mapped};
ghost use Rattle.symbol_table.specs.Bodies.{Bodied, Follows, Named};

use forest::Forest;
use mappings::Mappings;

// Every table has its body, the symbols are what has a name, and a table has an operation under a name exactly if the operation
// stands in its body under that name.
#[derive(Drop)]
pub struct SymbolTables {
    pub(crate) forest: Forest,
    pub(crate) mappings: Mappings,
    ghost bodied: { ∥ Bodied (model forest) ∥₁ },
    ghost named: { ∥ Named (model forest) ∥₁ },
    ghost follows: { ∥ Follows (model forest) (mapped mappings) ∥₁ },
}
