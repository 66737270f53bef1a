// Runs a script and counts what it prints.
use anyhow::bail;
use script::{Line, Session, read_line};
use std::alloc::Global;

// How many lines were printed, and how many bytes they have.
#[derive(Default, Drop)]
pub(crate) struct Count {
    pub(crate) lines: u64,
    pub(crate) bytes: u64,
}

// Runs a script in a new session, and counts its lines. Each stands in the buffer for a while.
pub(crate) fn run_script(
    heap: Global,
    script: &[u8],
    out: &mut [u8],
    count: &mut Count,
) -> anyhow::Result<()> {
    let mut session = Session::new(heap)?;
    let mut place = 0usize;
    // Kept: a loop over places, since each answer says where the next field stands, and a `for` would have no items to go over.
    'fields: loop {
        match read_line(&mut session, script, place, out) {
            Line::Printed { length, next } => {
                count.lines = count.lines.wrapping_add(1);
                count.bytes = count.bytes.wrapping_add(length as u64);
                place = next;
            }
            Line::End => return Ok(()),
            Line::Bounds => bail!("the script has over 4,096 bytes"),
        }
    }
}
