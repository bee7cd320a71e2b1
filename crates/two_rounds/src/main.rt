// Two rounds of a search of one direction, one after the other.
#![tactic(auto)]

use order::answer::Answer;
use policy::every::Every;
use refusal::Refusal;
use search::begin::begin;
use search::states::{Rest, Round};
use std::io;
use table::rows::{Entry, Row};

// Answers both points of a round.
fn answer(round: &Round, low: Answer, high: Answer, table: &mut [Row]) -> Result<(), Refusal> {
    round.answer(0, low, table)?;
    round.answer(1, high, table)
}

fn two_rounds(table: &mut [Row]) -> Result<Rest, Refusal> {
    let rest = begin(1, 19, table, Answer::Reading(5))?;
    let first = rest.open(&Every {}, table)?;
    answer(&first, Answer::Reading(3), Answer::NotFeasible, table)?;
    let rest = first.close(table)?;
    let second = rest.open(&Every {}, table)?;
    answer(&second, Answer::Reading(4), Answer::Reading(2), table)?;
    Ok(second.close(table)?)
}

fn main(rt: HostRuntime) -> io::Result<()> {
    let mut table = [Row::whole(Entry::Waiting); 8];
    match two_rounds(&mut table) {
        Ok(rest) => println!(rt; "boxes {} rounds {}", rest.boxes(), rest.rounds()),
        Err(why) => println!(rt; "refusal {}: {why}", why.number()),
    }
}
