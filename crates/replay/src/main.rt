// The program replay: runs recorded scripts, each in a fresh session, and compares what they print with the recorded lines.
#![tactic(auto)]

mod compare;
mod record;

use anyhow::anyhow;
use record::{Count, replay_text};
use std::{env, fs, io};

// Replays the records in the files that are named, or on standard input if none is.
fn main(rt: HostRuntime) -> anyhow::Result<()> {
    let mut count = Count::default();
    let mut files = env::args(&rt)?.skip(1).peekable();
    if files.peek().is_none() {
        let text = io::read_to_string(rt.alloc(), rt.stdin())?;
        replay_text(rt.alloc(), "standard input", text.as_str(), &mut count)?;
    }
    for file in files {
        let name = file.as_str();
        let text = fs::read_to_string(&rt, name).map_err(|error| anyhow!("{name}: {error}"))?;
        replay_text(rt.alloc(), name, text.as_str(), &mut count)?;
    }
    println!(rt;
        "{} scripts replayed, {} lines, 0 different",
        count.scripts, count.lines
    )?;
    Ok(())
}
