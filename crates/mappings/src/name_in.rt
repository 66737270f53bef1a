// What is mapped: a name in a table.
use records::OpPtr;

// A name, by its number, in a symbol table. Any table and any number may be handed in.
#[derive(Clone, Copy, PartialEq, Eq)]
pub struct NameIn {
    pub table: OpPtr,
    pub name: u16,
}
