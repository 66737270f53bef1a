// Histories of a store: all that its calls can make of it, and the ledger that an onlooker keeps meanwhile.
#![tactic(auto)]

mod laws;

pub use laws::every_history_is_right;
