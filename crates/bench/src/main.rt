// Times of the package beside those of the second implementation; they go to standard error.
// One argument sets the answers of the longest record; without it the sizes are those of docs/PERFORMANCE.md.
#![tactic(auto)]

mod draw;
mod fail;
mod looks;
mod made;
mod play;
mod replays;
mod searches;
mod tables;

use crate::fail::Fail;
use crate::looks::time_looks;
use crate::replays::time_replays;
use crate::searches::time_searches;
use std::rt::{Clock, Env};
use std::{env, io};

// The answers of the longest record: the argument, or as many as rows allow.
fn longest(rt: &(impl Env + Alloc)) -> Result<usize, Fail> {
    let mut most = 60_000;
    for word in env::args(rt)?.skip(1) {
        most = word.as_str().parse::<usize>().unwrap_or(most);
    }
    Ok(most.min(60_000))
}

fn run(rt: &(impl Clock + Env + Eprint + AllocGlobal)) -> Result<usize, Fail> {
    let most = longest(rt)?;
    let mut alike: usize = 0;
    for answers in [1_000, 8_000, 60_000] {
        if answers <= most {
            alike = time_replays(rt, answers)?.saturating_add(alike);
        }
    }
    if most < 1_000 {
        alike = time_replays(rt, most)?.saturating_add(alike);
    }
    alike = time_searches(rt, most.min(1_000))?.saturating_add(alike);
    if most >= 8_000 {
        alike = time_searches(rt, 8_000)?.saturating_add(alike);
    }
    time_looks(rt, most)?;
    Ok(alike)
}

fn main(rt: HostRuntime) -> io::Result<()> {
    match run(&rt) {
        Ok(alike) => println!(rt; "runs with the same table in both implementations: {alike}"),
        Err(Fail::Io(error)) => Err(error),
        Err(fail) => println!(rt; "{fail}"),
    }
}
