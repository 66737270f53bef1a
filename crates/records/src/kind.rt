// What an operation is: each of three properties, independent of the others.
ghost use Rattle.std.specs.Prelude.{◌≡◌};
ghost use Rattle.records.specs.Shapes.{Summed, kind_sum};

// A table has a body in which names are found; a symbol has a name; a terminator ends its block.
#[derive(Clone, Copy, Default, PartialEq, Eq)]
pub struct Kind {
    pub table: bool,
    pub symbol: bool,
    pub terminator: bool,
}

// A sum that no kind has.
#[derive(Clone, Copy, PartialEq, Eq)]
pub struct UnknownKind(pub u8);

impl TryFrom<u8> for Kind {
    type Error = UnknownKind;

    ghost try_from_gives = { Summed };

    // The kind with this sum of 1 for a table, 2 for a symbol and 4 for a terminator.
    fn try_from(sum: u8) -> Result<Kind, UnknownKind> {
        if sum > 7 {
            return Err(UnknownKind(sum));
        }
        Ok(Kind {
            table: sum % 2 == 1,
            symbol: sum / 2 % 2 == 1,
            terminator: sum / 4 == 1,
        })
    }
}

impl From<Kind> for u8 {
    ghost from_gives = { λ kind sum. sum ≡ kind_sum kind };

    // The sum that gives this kind.
    fn from(kind: Kind) -> u8 {
        u8::from(kind.table) + 2 * u8::from(kind.symbol) + 4 * u8::from(kind.terminator)
    }
}
