// The program irscript: runs a script, and prints a line for each of its fields.
#![tactic(auto)]

mod input;
mod lines;
mod options;

use input::read_script;
use lines::print_lines;
use options::{Task, read_task};
use std::process::ExitCode;

fn main(rt: HostRuntime) -> ExitCode {
    match run(&rt) {
        Ok(()) => ExitCode::SUCCESS,
        Err(error) => {
            let _ = eprintln!(rt; "irscript: {error}");
            ExitCode::FAILURE
        }
    }
}

// Does what the arguments ask for.
fn run(rt: &HostRuntime) -> anyhow::Result<()> {
    match read_task(rt)? {
        Task::Help => rt.print(options::USAGE)?,
        Task::Run { hex, file } => {
            let script = read_script(rt, hex, file)?;
            print_lines(rt.alloc(), script.as_slice(), &mut rt.stdout())?;
        }
    }
    Ok(())
}
