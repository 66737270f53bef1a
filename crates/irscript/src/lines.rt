// Runs a script line by line.
ghost use Rattle.std.specs.Result.{OnOk};
ghost use Rattle.irscript.specs.Printing.{PrintsLines};

use anyhow::bail;
use script::{Line, Session, read_line};
use std::alloc::Global;
use std::io::Write;

// Prints a line for each field of a script, in order, and nothing else; a script that is too long prints nothing.
pub(crate) fn print_lines<W: Write>(
    heap: Global,
    script: &[u8],
    writer: &mut W,
) -> anyhow::Result<()>
    ensures { OnOk result (PrintsLines script.now (W.contents writer.old) (W.contents writer.new)) }
{
    let mut session = Session::new(heap)?;
    let mut out = [0u8; 8192];
    let mut place = 0usize;
    // Kept: a loop over places, since each answer says where the next field stands, and a `for` would have no items to go over.
    'fields: loop {
        match read_line(&mut session, script, place, &mut out) {
            Line::Printed { length, next } => {
                writer.write_all(&out[..length])?;
                place = next;
            }
            Line::End => return Ok(()),
            Line::Bounds => bail!("the script has over 4,096 bytes"),
        }
    }
}
