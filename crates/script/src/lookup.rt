// Runs the fields that look up a name: their values, as a number and a name, and what their lines tell.
// Kept: a field's value and the list of what it shows are lent side by side, see `Nodes`; and the name is the value's rest, so that it
// has the value's lifetime.
ghost use Rattle.std.specs.Prelude.{◌≡◌, MatchResult};
ghost use Rattle.result.specs.declared.refusal.Refusal.TheVariants.{BadField};
ghost use Rattle.script.specs.Fields.{number_at};
ghost use Rattle.script.specs.Listed.{ToldAs};
ghost use Rattle.script.specs.Lookups.{NoLookup, name_sought};
ghost use Rattle.script.specs.Runs.{answer_of, TagRun};
ghost use Rattle.script.specs.declared.tag.Tag.TheVariants.{Lookup, NearestLookup};

use crate::node::{Close, Node, Nodes};
use crate::state::State;
use ir::{OpPtr, SymbolTable};
use result::Refusal;

// The parts of a value: an operation's number, and a name.
fn read(value: &[u8]) -> Result<(u16, &[u8]), Refusal>
    ensures { MatchResult result
        (λ l. (NoLookup value.now → ⊥) × (l.0 ≡ number_at value.now 0) × (l.1.now ≡ name_sought value.now))
        (λ e. NoLookup value.now × (e ≡ BadField)) }
{
    let [high, low, name @ ..] = value else {
        return Err(Refusal::BadField);
    };
    Ok((u16::from_be_bytes([*high, *low]), name))
}

impl State {
    // Lists the operation that a lookup found, and says what closes the line.
    fn tell(&self, found: Option<OpPtr>, nodes: &mut Nodes) -> Close
        ensures { ToldAs self.now found nodes.new.items result }
    {
        nodes.clear();
        let Some(op) = found else {
            return Close::Absent;
        };
        nodes.push(Node::Operation(self.operations.number_of(op)));
        Close::Nothing
    }

    // Looks up a name in a table.
    pub(crate) fn run_lookup(&self, value: &[u8], nodes: &mut Nodes) -> Result<Close, Refusal>
        ensures { TagRun self.now Lookup value.now (answer_of nodes.new.items result) self.now }
    {
        let (number, name) = read(value)?;
        let table = self.operations.get(number)?;
        let found = SymbolTable::new(table).lookup(&self.context, name)?;
        Ok(self.tell(found, nodes))
    }

    // Looks up a name in the table that is nearest to an operation.
    pub(crate) fn run_nearest_lookup(
        &self,
        value: &[u8],
        nodes: &mut Nodes,
    ) -> Result<Close, Refusal>
        ensures { TagRun self.now NearestLookup value.now (answer_of nodes.new.items result) self.now }
    {
        let (number, name) = read(value)?;
        let op = self.operations.get(number)?;
        let found = self.context.lookup_symbol_in_nearest_table(op, name)?;
        Ok(self.tell(found, nodes))
    }
}
