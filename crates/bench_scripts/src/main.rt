// The program bench_scripts: runs a script many times, each time in a new session, and prints how many lines and bytes that gave.
#![tactic(auto)]

mod input;
mod options;
mod runs;

use input::read_script;
use options::{Task, read_task};
use runs::{Count, run_script};

fn main(rt: HostRuntime) -> anyhow::Result<()> {
    match read_task(&rt)? {
        Task::Help => rt.print(options::USAGE)?,
        Task::Run { hex, times, file } => {
            let script = read_script(&rt, hex, file)?;
            let mut out = [0u8; 8192];
            let mut count = Count::default();
            for _ in 0..times {
                run_script(rt.alloc(), script.as_slice(), &mut out, &mut count)?;
            }
            println!(rt; "{} lines, {} bytes", count.lines, count.bytes)?;
        }
    }
    Ok(())
}
