// The key of the measured map: two numbers.
#[derive(Clone, Copy, PartialEq, Eq)]
pub struct Pair {
    pub table: u32,
    pub name: u32,
}
