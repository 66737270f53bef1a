// Measures walks of a full store: 1,024 nodes, deep and wide, walked 10,000 times from the root, through walk_op and held.
#![tactic(auto)]

mod counter;
mod full;
mod walking;

use ir::Context;
use std::io;

// Prints how many nodes all the walks showed.
fn report(rt: &impl Print, how: &str, shown: u64) -> io::Result<()> {
    println!(rt; "{how}: {shown} nodes shown")
}

fn main(rt: HostRuntime) -> io::Result<()> {
    let Ok(mut context) = Context::new(rt.alloc()) else {
        return println!(rt; "no memory");
    };
    let Ok(root) = full::build(&mut context) else {
        return println!(rt; "no room");
    };
    report(&rt, "walk_op", walking::shown_by_walk_op(&context, root))?;
    report(
        &rt,
        "held walk",
        walking::given_by_held_walks(&context, root),
    )
}
