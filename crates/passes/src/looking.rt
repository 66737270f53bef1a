// A leg of a book, looked up by name from below the book.
ghost use Rattle.ir.specs.Tables.{NearestLookupCall};

use ir::{Context, OpPtr};
use result::Refusal;

// The operation that the nearest table has under a name, as seen from an operation at any depth below that table; none where the
// table has none, or where no table is. An operation that is itself a table is its own nearest one.
pub fn lookup_from_below(
    context: &Context,
    from: OpPtr,
    name: &[u8],
) -> Result<Option<OpPtr>, Refusal>
    ensures { NearestLookupCall context.now from name.now result }
{
    context.lookup_symbol_in_nearest_table(from, name)
}
