// What an operation is made as.
ghost use Rattle.std.specs.Prelude.{◌≡◌, ◌≤◌, if◌then◌else◌};

use crate::kind::Kind;

// A kind and a number of regions that go together: at most 4, and exactly 1 for a table.
#[derive(Clone, Copy)]
pub struct Shape {
    pub(crate) kind: Kind,
    pub(crate) count: usize,
    ghost few: { count ≤ 4 },
    ghost one: { (if kind.table then count else 1) ≡ 1 },
}
