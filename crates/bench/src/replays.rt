// Replaying records by both implementations.
use crate::fail::Fail;
use crate::made::record_of_run;
use crate::play::timed;
use crate::tables::Tables;
use reference::lines::Table;
use reference::replay::replay as replay_again;
use reference::still::Still;
use search::replay::replay;
use search::states::Rest;
use std::rt::Clock;

// The numbers of directions whose records are replayed.
const DIRECTIONS: [u8; 3] = [2, 4, 6];

// One record by both.
fn time_replay(
    rt: &(impl Clock + Eprint + AllocGlobal),
    n: u8,
    answers: usize,
) -> Result<(), Fail> {
    let heap = rt.alloc();
    let Tables {
        mut rows,
        mut lines,
    } = Tables::new(heap)?;
    let made = record_of_run(rt, n, answers, &mut rows)?;
    let mut table = Table {
        heap,
        lines: &mut lines,
    };
    let bytes = made.bytes.as_slice();
    let (rest, ours) = timed(rt, || -> Result<Rest, Fail> {
        Ok(replay(bytes, &mut rows)?)
    })?;
    let (still, theirs) = timed(rt, || -> Result<Still, Fail> {
        Ok(replay_again(bytes, &mut table)?)
    })?;
    let boxes = rest.boxes();
    if boxes != still.boxes {
        return Err(Fail::Other);
    }
    Tables { rows, lines }.same_boxes()?;
    let ours = ours.as_micros();
    let theirs = theirs.as_micros();
    let fronts = made.fronts.as_micros();
    eprintln!(rt;
        "replay n {n} boxes {boxes}: {ours} us, of which fronts {fronts} us; reference {theirs} us"
    )?;
    Ok(())
}

// Records of so many answers, by both.
pub fn time_replays(
    rt: &(impl Clock + Eprint + AllocGlobal),
    answers: usize,
) -> Result<usize, Fail> {
    for n in DIRECTIONS {
        time_replay(rt, n, answers)?;
    }
    Ok(DIRECTIONS.len())
}
