// A whole search for the best setting of a small instrument, with its steps printed.
#![tactic(auto)]

mod cell;
mod cut;
mod guarantee;
mod instrument;
mod report;
mod run;
mod settings;
mod stop;

use crate::run::run;
use crate::stop::Stop;
use std::io;

fn main(rt: HostRuntime) -> io::Result<()> {
    match run(&rt) {
        Ok(()) => Ok(()),
        Err(Stop::Refused(why)) => println!(rt; "Refusal {}: {why}", why.number()),
        Err(Stop::Failed(error)) => Err(error),
    }
}
