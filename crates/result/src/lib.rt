// The refusals of the calls, with their numbers and names, and what it means that a call tests them in order.
#![tactic(auto)]

mod refusal;
#[cfg(test)]
mod tests;

pub use refusal::{Refusal, eq_decides, numbers_are_distinct};
