// Takes in one byte of a text.
// Kept: a byte and its place, as `enumerate` gives them: a struct for the pair is no plainer.
#![tactic(auto, using(crate::proofs::Reading::after_none), unfolding(crate::specs::Texts::reads))]

ghost use Rattle.std.specs.Prelude.{◌<◌};
ghost use Rattle.hexadecimal.specs.Decodes.{Stepped, Small};
ghost use Rattle.hexadecimal.specs.declared.state.State.TheVariants.{Between, Comment, Half};

use crate::class::{Class, classify};
use crate::error::HexError;
use crate::state::{State, Step};

// What the byte at a place leads to.
pub(crate) fn step(state: State, place: usize, byte: u8) -> Result<Step, HexError>
    requires { Small state }
    ensures { Stepped state place byte result }
{
    match state {
        State::Between => between(place, byte),
        State::Comment => comment(place, byte),
        State::Half { high, place: first } => half(high, first, place, byte),
    }
}

// Between pairs of digits.
fn between(place: usize, byte: u8) -> Result<Step, HexError>
    ensures { Stepped Between place byte result }
{
    match classify(byte) {
        Class::Parting => Ok(Step {
            next: State::Between,
            byte: None,
        }),
        Class::Hash => Ok(Step {
            next: State::Comment,
            byte: None,
        }),
        Class::Digit(high) => Ok(Step {
            next: State::Half { high, place },
            byte: None,
        }),
        Class::Other => Err(HexError::NotHex { place }),
    }
}

// In a comment.
fn comment(place: usize, byte: u8) -> Result<Step, HexError>
    ensures { Stepped Comment place byte result }
{
    let next = if byte == b'\n' {
        State::Between
    } else {
        State::Comment
    };
    Ok(Step { next, byte: None })
}

// After the first digit of a pair.
fn half(high: u8, first: usize, place: usize, byte: u8) -> Result<Step, HexError>
    requires { high < 16 }
    ensures { Stepped (Half high first) place byte result }
{
    match classify(byte) {
        Class::Digit(low) => Ok(Step {
            next: State::Between,
            byte: Some(high * 16 + low),
        }),
        Class::Parting | Class::Hash | Class::Other => Err(HexError::HalfByte { place: first }),
    }
}
