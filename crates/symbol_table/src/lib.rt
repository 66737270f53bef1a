// The symbol tables of a store: which operation stands in the body of which table under which name. Knows names by their numbers
// alone.
#![tactic(auto)]

mod admitting;
mod erasing;
mod inserting;
mod laws;
mod linking;
mod looking;
mod making;
mod op_insertion_point;
mod reading;
mod symbol_tables;

pub use laws::bodies_hold_symbols;
pub use op_insertion_point::OpInsertionPoint;
pub use symbol_tables::SymbolTables;
