// Scripts: fields, the numbering of nodes, and the line call, which runs one field and prints its line.
#![tactic(auto)]

mod erasing;
mod field;
mod laws;
mod line;
mod link;
mod linking;
mod lookup;
mod make;
mod node;
mod node_ptr;
mod numbering;
mod numbers;
mod print;
mod run;
mod session;
mod state;
mod steering;
mod symbol;
mod symbols;
mod tag;
mod trail;
mod walk;
mod walking;

pub use field::{Field, read_field};
pub use laws::line_is_one;
pub use line::{Line, read_line};
pub use node::{Close, Node};
pub use session::Session;
