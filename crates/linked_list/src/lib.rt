// Doubly linked lists whose links stand in a store: what a node must offer, the edits, and the steps of an iteration.
#![tactic(auto)]

mod edits;
mod gap;
mod iter;
mod linked_list;
mod span;
mod spot;

pub use edits::{
    edit_laws, insert, insert_after, insert_at_back, insert_at_front, insert_before, is_linked,
    unlink,
};
pub use iter::{each_once, step_back, step_front, whole};
pub use linked_list::LinkedList;
pub use span::{Span, Step};
pub use spot::Spot;
