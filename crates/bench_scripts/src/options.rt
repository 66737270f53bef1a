// The arguments of the program.
use anyhow::{anyhow, bail, ensure};
use std::env;

// What --help prints.
pub(crate) const USAGE: &str = "usage: bench_scripts [--hex] TIMES [FILE]

Runs the script in FILE, or on standard input, so many times, each time in a new session, and
prints how many lines and bytes that gave.

  --hex   the script is written in hexadecimal digits, as for irscript
  --help  print this
";

// What the program is to do.
#[derive(Drop)]
pub(crate) enum Task {
    // Print the usage.
    Help,
    // Run the script in the file, or on standard input if there is none, which may be written in hexadecimal.
    Run {
        hex: bool,
        times: u32,
        file: Option<String>,
    },
}

// Reads the arguments.
pub(crate) fn read_task(rt: &HostRuntime) -> anyhow::Result<Task> {
    let mut hex = false;
    let mut times = None;
    let mut file = None;
    for word in env::args(rt)?.skip(1) {
        match word.as_str() {
            "--help" => return Ok(Task::Help),
            "--hex" => hex = true,
            option if option.starts_with("-") => bail!("unknown option {word}, see --help"),
            number if times.is_none() => times = Some(read_times(number)?),
            _ => {
                ensure!(file.is_none(), "more than one file, see --help");
                file = Some(word);
            }
        }
    }
    let times = times.ok_or_else(|| anyhow!("how many times? see --help"))?;
    Ok(Task::Run { hex, times, file })
}

// A number of times.
fn read_times(word: &str) -> anyhow::Result<u32> {
    word.parse::<u32>()
        .map_err(|_| anyhow!("{word}: no number of times, see --help"))
}
