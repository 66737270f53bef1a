// The arguments of the program.
use anyhow::{bail, ensure};
use std::env;

// What --help prints.
pub(crate) const USAGE: &str = "usage: irscript [--hex] [FILE]

Runs the script in FILE, or on standard input, and prints a line for each of its fields.
A script has at most 4,096 bytes.

  --hex   the script is written in hexadecimal digits, two to a byte; white space and commas may
          stand between bytes, and a comment goes from # to the end of its line
  --help  print this
";

// What the program is to do.
#[derive(Drop)]
pub(crate) enum Task {
    // Print the usage.
    Help,
    // Run the script in the file, or on standard input if there is none, which may be written in hexadecimal.
    Run { hex: bool, file: Option<String> },
}

// Reads the arguments.
pub(crate) fn read_task(rt: &HostRuntime) -> anyhow::Result<Task> {
    let mut hex = false;
    let mut file = None;
    for word in env::args(rt)?.skip(1) {
        match word.as_str() {
            "--help" => return Ok(Task::Help),
            "--hex" => hex = true,
            option if option.starts_with("-") => bail!("unknown option {word}, see --help"),
            _ => {
                ensure!(file.is_none(), "more than one file, see --help");
                file = Some(word);
            }
        }
    }
    Ok(Task::Run { hex, file })
}
