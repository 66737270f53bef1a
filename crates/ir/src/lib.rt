// The store as its users have it: nodes, symbol tables and names, and the calls on them, each with its refusals.
#![tactic(auto)]

mod context;
mod erasing;
mod laws;
mod linking;
mod making;
mod noting;
mod reading;
mod tables;

pub use context::Context;
pub use forest::{BlockIter, OpIter};
pub use laws::bodies_hold_symbols;
pub use linked_list::Spot;
pub use records::{BlockPtr, IRNode, Kind, MadeOperation, OpPtr, RegionList, RegionPtr};
pub use symbol_table::OpInsertionPoint;
pub use tables::SymbolTable;
