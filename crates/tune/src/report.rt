// What is printed of a search. Each function that prints takes the console; the table is lent.
use crate::cell::Cell;
use crate::cut::Cut;
use crate::guarantee::{level_after, longest_side, side_at};
use crate::settings::{DIALS, FINEST, SHARE};
use crate::stop::Stop;
use grid::interval::CELLS;
use order::answer::Answer;
use refusal::Refusal;
use search::states::{Rest, Round};
use std::io;
use table::rows::Row;

// The numbers of the search, and how its lines are read.
pub fn print_settings(rt: &HostRuntime) -> io::Result<()> {
    println!(rt; "Search of {DIALS} directions with {CELLS} cells each, finest level {FINEST}")?;
    println!(rt; "Policy: hull with a share of {SHARE} ten thousandths")?;
    println!(rt; "A reading of - is not feasible; w is the earlier of a direction's two answers")
}

// The number of a round and the ranks that it has chosen.
pub fn print_chosen(rt: &HostRuntime, round: &Round) -> io::Result<()> {
    print!(rt; "Round {}, chosen ranks:", round.rounds() + 1)?;
    for rank in round.chosen().members() {
        print!(rt; " {rank}")?;
    }
    println!(rt)
}

pub fn print_point(rt: &HostRuntime, point: usize, cell: Cell, answer: Answer) -> io::Result<()> {
    println!(rt; "  point {point:>2}: cell {cell}, reading {answer}")
}

// The boxes that a round cuts, when all its points are answered.
pub fn print_cuts(rt: &HostRuntime, round: &Round, table: &[Row]) -> Result<(), Stop> {
    let mut base = round.boxes();
    let boxes = table.get(0..base).ok_or(Refusal::NotOwnTable)?;
    let firsts = round.shape().firsts(boxes);
    for rank in round.chosen().members() {
        if let Some(taken) = firsts[rank] {
            let cut = Cut::new(table, taken.row, rank, base);
            println!(rt; "  cut {cut}")?;
            base = base.saturating_add(cut.points());
        }
    }
    Ok(())
}

// The best box of a search at rest, after some words.
pub fn print_best(rt: &HostRuntime, words: &str, rest: &Rest, table: &[Row]) -> Result<(), Stop> {
    let Some((row, reading)) = rest.best(table)? else {
        println!(rt; "{words}: no reading yet")?;
        return Ok(());
    };
    let first = table.get(row).ok_or(Refusal::NotOwnTable)?;
    let cell = Cell::middle_of(first)?;
    println!(rt; "{words}: cell {cell}, the middle of row {row}, reading {reading}")?;
    Ok(())
}

// The rounds and the boxes, and how long their sides are and may be.
pub fn print_end(rt: &HostRuntime, rest: &Rest, table: &[Row]) -> Result<(), Stop> {
    let rounds = rest.rounds();
    let boxes = table.get(0..rest.boxes()).ok_or(Refusal::NotOwnTable)?;
    let longest = longest_side(boxes)?;
    let most = side_at(level_after(rounds));
    println!(rt; "Rounds: {rounds}, boxes: {}", boxes.len())?;
    println!(rt; "Longest side of any box: {longest} cells")?;
    println!(rt;
        "Guaranteed after {rounds} rounds, whatever the policy: no side is longer than {most} cells"
    )?;
    Ok(())
}
