// Measures lookups: two symbol tables with so many symbols in all, each of whose names is looked up in turn, many times.
#![tactic(auto)]

mod naming;
mod tables;

use anyhow::{anyhow, bail};
use ir::Context;
use naming::make_names;
use std::env;
use tables::{fill, look_rounds};

// The most symbols: 250 names in each table.
const MOST: u32 = 500;

// A number among the arguments.
fn read_number(word: Option<String>) -> anyhow::Result<u32> {
    let word = word.ok_or_else(|| anyhow!("usage: bench_lookups SYMBOLS ROUNDS [--absent]"))?;
    word.as_str()
        .parse::<u32>()
        .map_err(|_| anyhow!("{word}: no number"))
}

// Fills two tables with the number of symbols that is the first argument, looks each name up as often as the second one says, in its
// table or with --absent in one without it, and prints how many were found.
fn main(rt: HostRuntime) -> anyhow::Result<()> {
    let mut words = env::args(&rt)?.skip(1);
    let symbols = read_number(words.next())?;
    let rounds = read_number(words.next())?;
    let absent = words.next().is_some_and(|word| word.as_str() == "--absent");
    if symbols > MOST {
        bail!("at most {MOST} symbols");
    }
    let names = make_names(rt.alloc(), symbols)?;
    let mut context = Context::new(rt.alloc())?;
    let Ok(tables) = fill(&mut context, names.as_slice()) else {
        bail!("no room");
    };
    let count = look_rounds(&context, tables, names.as_slice(), rounds, absent);
    println!(rt; "{} found, {} absent", count.found, count.absent)?;
    Ok(())
}
