// A search from its beginning to its report.
use crate::cell::Cell;
use crate::instrument::measure;
use crate::report::{print_best, print_chosen, print_cuts, print_end, print_point, print_settings};
use crate::settings::{DIALS, FINEST, ROUNDS, ROWS, SHARE};
use crate::stop::Stop;
use hull::hull::Hull;
use search::begin::begin;
use search::states::{Rest, Round};
use table::rows::{Entry, Row};

// Measures a point of a round and prints it.
fn answer_point(
    rt: &HostRuntime,
    round: &Round,
    point: usize,
    table: &mut [Row],
) -> Result<(), Stop> {
    let mut cells = [0; DIALS];
    round.locate(point, table, &mut cells)?;
    let cell = Cell(cells);
    let answer = measure(cell);
    round.answer(point, answer, table)?;
    print_point(rt, point, cell, answer)?;
    Ok(())
}

// Measures all points of a round.
fn answer_all(rt: &HostRuntime, round: &Round, table: &mut [Row]) -> Result<(), Stop> {
    for point in 0..round.points() {
        answer_point(rt, round, point, table)?;
    }
    Ok(())
}

// Takes a round from its opening to its close.
fn finish(rt: &HostRuntime, round: Round, table: &mut [Row]) -> Result<Rest, Stop> {
    print_chosen(rt, &round)?;
    answer_all(rt, &round, table)?;
    print_cuts(rt, &round, table)?;
    let rest = round.close(table)?;
    print_best(rt, "  best so far", &rest, table)?;
    Ok(rest)
}

// Opens and finishes rounds, until there are enough or the search refuses one.
fn rounds(rt: &HostRuntime, begun: Rest, table: &mut [Row]) -> Result<Rest, Stop> {
    let policy = Hull::new(SHARE)?;
    let mut rest = begun;
    for _round in 0..ROUNDS {
        rest = match rest.open(&policy, table) {
            Ok(round) => finish(rt, round, table)?,
            Err(refused) => {
                let why = refused.0;
                println!(rt; "No further round: refusal {}, {why}", why.number())?;
                return Ok(refused.1);
            }
        };
    }
    Ok(rest)
}

// Begins a search with the reading at the grid's middle.
fn start(rt: &HostRuntime, table: &mut [Row]) -> Result<Rest, Stop> {
    let middle = Cell::middle_of(&Row::whole(Entry::Waiting))?;
    let rest = begin(DIALS as u8, FINEST, table, measure(middle))?;
    print_best(rt, "Start", &rest, table)?;
    Ok(rest)
}

// The whole search.
pub fn run(rt: &HostRuntime) -> Result<(), Stop> {
    print_settings(rt)?;
    let mut table = [Row::whole(Entry::Waiting); ROWS];
    let begun = start(rt, &mut table)?;
    let rest = rounds(rt, begun, &mut table)?;
    print_best(rt, "Best setting", &rest, &table)?;
    print_end(rt, &rest, &table)
}
