// Replays the record on standard input and prints the table of its run, or the refusal.
#![tactic(auto)]

use report::run::run;
use std::io;

fn main(rt: HostRuntime) -> io::Result<()> {
    run(&rt)
}
