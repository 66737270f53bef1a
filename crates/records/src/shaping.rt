// Testing what an operation is made as.
ghost use Rattle.std.specs.Prelude.{◌≡◌, ◌≤◌, true};
ghost use Rattle.records.specs.Shapes.{Shaped};

use crate::kind::Kind;
use crate::shape::Shape;

impl Shape {
    // What the operation is to be.
    pub fn kind(self) -> Kind
        ensures { result ≡ self.kind }
    {
        self.kind
    }

    // How many regions it is to have.
    pub fn regions(self) -> usize
        ensures count { result ≡ self.count }
        ensures few { result ≤ 4 }
        ensures one { self.kind.table ≡ true → result ≡ 1 }
    {
        self.count
    }

    // The shape of a kind with so many regions, with a name or without, where these go together.
    // Kept: the kind is a sum in a byte, a rule of the project, since a sum above 7 has no shape; and an early return for each rule is
    // plainer than one `then` over all.
    pub fn new(sum: u8, regions: u8, named: bool) -> Option<Shape>
        ensures { Shaped sum regions named result }
    {
        let kind = Kind::try_from(sum).ok()?;
        if regions > 4 || kind.symbol != named || (kind.table && regions != 1) {
            return None;
        }
        Some(Shape {
            kind,
            count: regions as usize,
        })
    }
}
