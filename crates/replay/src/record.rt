// Reads records.
use crate::compare::compare_lines;
use anyhow::anyhow;
use hexadecimal::decode;
use std::alloc::Global;

// How much was replayed.
#[derive(Default, Drop)]
pub(crate) struct Count {
    pub(crate) scripts: usize,
    pub(crate) lines: usize,
}

// Replays the records of a text, which are parted by empty lines, up to the first that is different.
pub(crate) fn replay_text(
    heap: Global,
    source: &str,
    text: &str,
    count: &mut Count,
) -> anyhow::Result<()> {
    for (place, record) in text.split("\n\n").enumerate() {
        let lines = replay_record(heap, record).map_err(|error| anyhow!(
            "{source}, script {}: {error}",
            place.saturating_add(1)
        ))?;
        count.scripts = count.scripts.saturating_add(1);
        count.lines = count.lines.saturating_add(lines);
    }
    Ok(())
}

// Replays a record: a script as hexadecimal text, a line with the word `prints`, and the lines of the script. Says how many they are.
fn replay_record(heap: Global, record: &str) -> anyhow::Result<usize> {
    let (text, wanted) = record
        .split_once("\nprints\n")
        .ok_or_else(|| anyhow!("no line with the word prints"))?;
    let mut script = Vec::new(heap);
    decode(text.as_bytes(), &mut script)?;
    compare_lines(heap, script.as_slice(), wanted.as_bytes())?;
    Ok(wanted.split_terminator('\n').count())
}
