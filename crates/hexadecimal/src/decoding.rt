// Decodes a text.
ghost use Rattle.std.specs.Prelude.{◌≡◌, ◌+◌, ◌<◌, ◌≤◌, false, length, take, vec_len, vec_capacity};
ghost use Rattle.hexadecimal.specs.Decodes.{Decodes, Wanting, ReadIn};

use crate::error::HexError;
use crate::state::State;
use crate::step::step;

// Puts the bytes that a text means behind those that are there. Where the text goes wrong, only those stay. Memory is
// never wanting where there is room for as many bytes as the text has.
pub fn decode(text: &[u8], out: &mut Vec<u8>) -> Result<(), HexError>
    ensures bytes { Decodes text.now out.old.items result out.new.items }
    ensures memory { Wanting result (vec_capacity out.old < vec_len out.old + length text.now) }
{
    let start = out.len();
    let outcome = read(text, out);
    if outcome.is_err() {
        out.truncate(start);
    }
    outcome
}

// Reads a text from its start. Where it goes wrong, the bytes before that place stand behind those that were there.
fn read(text: &[u8], out: &mut Vec<u8>) -> Result<(), HexError>
    ensures bytes { ReadIn text.now out.old.items result out.new.items }
    ensures memory { Wanting result (vec_capacity out.old < vec_len out.old + length text.now) }
    ensures front { take (vec_len out.old) out.new.items ≡ out.old.items }
{
    let mut state = State::Between;
    'bytes: for (place, byte) in text.iter().enumerate() {
        // Kept: a `match`: by `?`, parts of a step are carried from turn to turn, and comments took 2.4 times as long.
        let taken = match step(state, place, *byte) {
            Ok(taken) => taken,
            Err(error) => return Err(error),
        };
        if let Some(whole) = taken.byte {
            out.push(whole).map_err(|_| HexError::NoMemory)?;
        }
        state = taken.next;
    }
    match state {
        State::Between | State::Comment => Ok(()),
        State::Half { place, .. } => Err(HexError::HalfByte { place }),
    }
}
