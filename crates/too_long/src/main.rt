// The same as `replay`, run on an input that is too long to be replayed.
#![tactic(auto)]

use report::run::run;
use std::io;

fn main(rt: HostRuntime) -> io::Result<()> {
    run(&rt)
}
