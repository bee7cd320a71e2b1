// Refusing a table for its last row and for its first.
use crate::fail::Fail;
use crate::made::record_of_run;
use crate::play::timed;
use crate::tables::fresh_rows;
use search::replay::replay;
use search::states::Rest;
use std::mem;
use std::rt::Clock;
use table::rows::{Entry, Row};

// The time in which a table is refused whose row has lost its answer, in nanoseconds.
fn refusal_time(
    rt: &(impl Clock + Eprint + AllocGlobal),
    rest: &Rest,
    table: &mut [Row],
    row: usize,
) -> Result<u128, Fail> {
    let damaged = table.get_mut(row).ok_or(Fail::Other)?;
    let entry = mem::replace(&mut damaged.entry, Entry::Waiting);
    let (refused, took) = timed(rt, || Ok(rest.best(table).is_err()))?;
    if let Some(damaged) = table.get_mut(row) {
        damaged.entry = entry;
    }
    if refused {
        Ok(took.as_nanos())
    } else {
        Err(Fail::Other)
    }
}

pub fn time_looks(rt: &(impl Clock + Eprint + AllocGlobal), answers: usize) -> Result<(), Fail> {
    let mut rows = fresh_rows(rt.alloc())?;
    let made = record_of_run(rt, 4, answers, &mut rows)?;
    let rest = replay(&made.bytes, &mut rows)?;
    let boxes = rest.boxes();
    let last = refusal_time(rt, &rest, &mut rows, boxes.saturating_sub(1))?;
    let first = refusal_time(rt, &rest, &mut rows, 0)?;
    eprintln!(rt;
        "refusing a table of {boxes} boxes: for its last row {last} ns, for its first {first} ns"
    )?;
    Ok(())
}
