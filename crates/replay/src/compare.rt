// Compares what a script prints with the lines that are wanted.
ghost use Rattle.std.specs.Prelude.{IfOk};
ghost use Rattle.replay.specs.Wanting.{Passes, Passed};

use anyhow::{bail, ensure};
use script::{Line, Session, read_line};
use std::alloc::Global;

// Runs a script up to the first line that is different from the one that is wanted.
pub(crate) fn compare_lines(heap: Global, script: &[u8], wanted: &[u8]) -> anyhow::Result<()>
    ensures { IfOk result (λ u. Passes script.now wanted.now) }
{
    let mut session = Session::new(heap)?;
    let mut out = [0u8; 8192];
    let mut place = 0usize;
    let mut rest = wanted;
    // Kept: a loop over places, since each answer says where the next field stands, and a `for` would have no items to go over.
    'fields: loop {
        match read_line(&mut session, script, place, &mut out) {
            Line::Printed { length, next } => {
                rest = past_line(heap, rest, &out[..length])?;
                place = next;
            }
            Line::End if rest.is_empty() => return Ok(()),
            Line::End => bail!("more lines are wanted than are given"),
            Line::Bounds => bail!("the script has over 4,096 bytes"),
        }
    }
}

// What is wanted after a line that was printed, with the byte that ends it, where the line is wanted now. The last line may want that
// byte.
fn past_line<'a>(heap: Global, wanted: &'a [u8], given: &[u8]) -> anyhow::Result<&'a [u8]>
    ensures { IfOk result (λ rest. Passed wanted.now given.now rest.now) }
{
    ensure!(!wanted.is_empty(), "more lines are given than are wanted");
    if let Some(rest) = wanted.strip_prefix(given) {
        return Ok(rest);
    }
    match given.split_last() {
        Some((b'\n', text)) if text == wanted => Ok(&[]),
        _ => {
            let line = wanted.split(|byte| *byte == b'\n').next().unwrap_or(wanted);
            let shown = String::from_utf8_lossy(heap, given)?;
            let awaited = String::from_utf8_lossy(heap, line)?;
            bail!(
                "wanted {:?}, given {:?}",
                awaited.as_str(),
                shown.trim_end()
            )
        }
    }
}
