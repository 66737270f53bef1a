// One field of a script: a tag byte, a two-byte length, high byte first, and a value.
// Kept: a script and a place in it as parameters, since by a rule of the project the line call is lent both; and the
// tag is a byte here, since a field that is cut is refused before an unknown tag is.
ghost use Rattle.std.specs.Result.{MatchResult};
ghost use Rattle.script.specs.Fields.{FieldCutOff, Stands};

use result::Refusal;

// A field, and the place after it.
#[derive(Clone, Copy, Drop)]
pub struct Field<'a> {
    pub tag: u8,
    pub value: &'a [u8],
    pub next: usize,
}

// The field at a place of a script: refused as ScriptCut where its bytes run past the script's end.
pub fn read_field(script: &[u8], place: usize) -> Result<Field<'_>, Refusal>
    ensures { MatchResult result
        (λ f. Stands script.now place f.tag f.value.now f.next)
        (λ e. FieldCutOff script.now place e) }
{
    let Some([tag, high, low, rest @ ..]) = script.get(place..) else {
        return Err(Refusal::ScriptCut);
    };
    let size = usize::from(u16::from_be_bytes([*high, *low]));
    let value = rest.get(..size).ok_or(Refusal::ScriptCut)?;
    Ok(Field {
        tag: *tag,
        value,
        next: place + 3 + size,
    })
}
