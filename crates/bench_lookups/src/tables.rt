// Symbol tables, and lookups in them.
use super::naming::Name;
use ir::{Context, OpPtr, SymbolTable};
use result::Refusal;

// The tables in which the symbols with even numbers stand, and those with odd ones, and one with another symbol.
#[derive(Clone, Copy, Drop)]
pub struct Tables {
    even: OpPtr,
    odd: OpPtr,
    other: OpPtr,
}

// How often a name was found, and how often it was not.
#[derive(Default, Drop)]
pub struct Count {
    pub found: u64,
    pub absent: u64,
}

impl Tables {
    // The table of a symbol.
    fn of(self, symbol: usize) -> SymbolTable {
        SymbolTable::new(if symbol % 2 == 0 { self.even } else { self.odd })
    }
}

// Makes the tables, and a symbol for each name.
pub fn fill(context: &mut Context, names: &[Name]) -> Result<Tables, Refusal> {
    let even = context.make_operation(1, 1, b"")?.operation;
    let odd = context.make_operation(1, 1, b"")?.operation;
    let other = context.make_operation(1, 1, b"")?.operation;
    let tables = Tables { even, odd, other };
    for (symbol, name) in names.iter().enumerate() {
        let op = context.make_operation(2, 0, name)?.operation;
        tables.of(symbol).insert(context, op, None)?;
    }
    let op = context.make_operation(2, 0, b"name_999")?.operation;
    SymbolTable::new(other).insert(context, op, None)?;
    Ok(tables)
}

impl Count {
    // Looks a name up in a table.
    fn look(&mut self, context: &Context, table: SymbolTable, name: &Name) {
        match table.lookup(context, name) {
            Ok(Some(_)) => self.found = self.found.wrapping_add(1),
            Ok(None) => self.absent = self.absent.wrapping_add(1),
            Err(_) => {}
        }
    }

    // Looks each name up in its table, or in the other one.
    fn look_round(&mut self, context: &Context, tables: Tables, names: &[Name], absent: bool) {
        for (symbol, name) in names.iter().enumerate() {
            let table = if absent {
                SymbolTable::new(tables.other)
            } else {
                tables.of(symbol)
            };
            self.look(context, table, name);
        }
    }
}

// Looks all names up in so many rounds.
pub fn look_rounds(
    context: &Context,
    tables: Tables,
    names: &[Name],
    rounds: u32,
    absent: bool,
) -> Count {
    let mut count = Count::default();
    for _ in 0..rounds {
        count.look_round(context, tables, names, absent);
    }
    count
}
