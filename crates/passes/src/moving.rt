// Moving a symbol from one table to another: two calls, of which the second may be refused after the first was done.
ghost use Rattle.std.specs.Prelude.{Result};
ghost use Rattle.passes.specs.Moves.{Moved};

use ir::{Context, OpPtr, SymbolTable};
use result::Refusal;

// Why a symbol was not moved, and where it is.
#[derive(Clone, Copy, Drop)]
pub enum NotMoved {
    // It was not taken out of its table; nothing changed.
    Stays(Refusal),
    // It was taken out of its table and refused by the other; it stands in neither.
    Loose(Refusal),
}

// Takes a symbol out of one table and puts it into another, before a terminator that stands last there, else at the back.
pub fn move_symbol(
    context: &mut Context,
    op: OpPtr,
    from: SymbolTable,
    to: SymbolTable,
) -> Result<(), NotMoved>
    ensures { Moved context.old op from.op to.op result context.new }
{
    from.remove(context, op).map_err(NotMoved::Stays)?;
    to.insert(context, op, None).map_err(NotMoved::Loose)
}
