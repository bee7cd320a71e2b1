// A small built-in instrument of two dials, in whole numbers.
ghost use Rattle.std.specs.Prelude.{◌≤◌, T};
ghost use Rattle.order.specs.Answers.{allowed};

use crate::cell::Cell;
use order::answer::Answer;

// The cells of one step of a dial; the steps are 0 to 728.
const STEP: u32 = 1_594_323;

const LAST_STEP: u32 = 728;

// The step of a cell.
fn step(cell: u32) -> u32
    ensures { result ≤ 728 }
{
    (cell / STEP).min(LAST_STEP)
}

// The square of how far a step is from another.
fn square(step: u32, from: u32) -> u32
    requires { (step ≤ 728) × (from ≤ 728) }
    ensures { result ≤ 529984 }
{
    let distance = step.abs_diff(from);
    distance * distance
}

// Where both dials stand high the instrument overheats, and nothing can be measured.
fn overheats(x: u32, y: u32) -> bool {
    x > 500 && y > 260
}

// Two valleys of readings: the deep one is lowest at steps 430 and 230, the shallow one at 150 and 520.
fn reading(x: u32, y: u32) -> u32
    requires { (x ≤ 728) × (y ≤ 728) }
    ensures { result ≤ 200000 }
{
    let deep = 50 + (square(x, 430) + 2 * square(y, 230)) / 10;
    let shallow = 900 + (2 * square(x, 150) + square(y, 520)) / 10;
    deep.min(shallow)
}

// The answer at a cell: one that every search takes.
pub fn measure(cell: Cell) -> Answer
    ensures { T (allowed result) }
{
    let x = step(cell.0[0]);
    let y = step(cell.0[1]);
    if overheats(x, y) {
        Answer::NotFeasible
    } else {
        Answer::Reading(reading(x, y) as i32)
    }
}
