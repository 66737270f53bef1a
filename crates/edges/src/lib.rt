// Edge cases, one by one, each as a theorem: of walks, of a table put into itself, and of names.
#![tactic(auto)]

mod cases;

pub use cases::edge_cases;
