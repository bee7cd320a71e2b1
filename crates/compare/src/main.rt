// Runs the search beside a second implementation, call by call, and compares what both give.
#![tactic(auto)]

mod craft;
mod desk;
mod draw;
mod halt;
mod list;
mod mischief;
mod plan;
mod records;
mod runs;
mod seen;
mod setting;
mod states;
mod tables;
mod tally;
mod why;
mod worked;

use crate::halt::Halt;
use crate::list::all_runs;
use crate::records::all_records;
use crate::tally::Tally;
use crate::worked::examples;
use std::io;

// Compares all that there is.
fn compare_all(tally: &mut Tally) -> Result<(), Halt> {
    examples(tally)?;
    all_runs(tally)?;
    all_records(tally)
}

// What was compared.
fn print_counts(rt: &impl Print, tally: &Tally) -> io::Result<()> {
    println!(rt; "runs {}", tally.run)?;
    println!(rt; "calls {}", tally.calls)?;
    print!(rt; "refused calls by number:")?;
    for (why, count) in &tally.refusals {
        print!(rt; " {why}: {count}")?;
    }
    println!(rt)?;
    println!(rt;
        "boxes at the ends of runs {}, at most {}",
        tally.boxes, tally.most
    )?;
    println!(rt; "rows compared {}", tally.rows)
}

// The first difference, or that there is none.
fn print_outcome(rt: &impl Print, tally: &Tally, outcome: Result<(), Halt>) -> io::Result<()> {
    match outcome {
        Ok(()) => println!(rt; "differences 0"),
        Err(Halt::Memory) => println!(rt; "no memory"),
        Err(Halt::Stuck) => println!(rt; "a worked example does not go on, in run {}", tally.run),
        Err(Halt::Differs(difference)) => {
            println!(rt; "{difference}")?;
            match tally.setting {
                Some(setting) => println!(rt; "run: {setting}"),
                None => println!(rt; "run: a fixed one"),
            }
        }
    }
}

fn main(rt: HostRuntime) -> io::Result<()> {
    let mut tally = Tally::new(rt.alloc());
    let outcome = compare_all(&mut tally);
    print_counts(&rt, &tally)?;
    print_outcome(&rt, &tally, outcome)
}
