// The store of a program: its nodes with their symbol tables, and the names that it holds. Both are reached in this crate alone.
ghost use Rattle.ir.specs.Numbers.{NumbersHeld};
ghost use Rattle.forest.specs.Forests.{model};
ghost use Rattle.names.specs.Held.{held};
ghost use Rattle.std.specs.Prelude.{length};

use names::Names;
use symbol_table::SymbolTables;

// Every operation's name is held.
#[derive(Drop)]
pub struct Context {
    pub(crate) tables: SymbolTables,
    pub(crate) names: Names,
    ghost numbers: { ∥ NumbersHeld (model tables.forest) (length (held names)) ∥₁ },
}
