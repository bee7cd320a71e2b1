// Intervals as ternary digits, the highest first. The level is how many there are.
use super::lines::Side;
use std::alloc::{AllocError, Global};
use std::iter;

// The digits of a cell of a direction.
pub const MOST: usize = 19;

// A third of an interval; as a number it is a ternary digit.
#[derive(Clone, Copy, Debug, PartialEq, Eq)]
pub enum Third {
    Low = 0,
    Middle = 1,
    High = 2,
}

const THIRDS: [Third; 3] = [Third::Low, Third::Middle, Third::High];

pub type Digits = Vec<Third>;

// The nineteen digits of a number, or none where it has more.
fn spelled(heap: Global, number: u32) -> Result<Option<Digits>, AllocError> {
    let mut digits = Vec::with_capacity(heap, MOST)?;
    let mut rest = number;
    for _ in 0..MOST {
        digits.push(THIRDS[(rest % 3) as usize])?;
        rest /= 3;
    }
    digits.reverse();
    Ok((rest == 0).then_some(digits))
}

// The interval of a first cell and a level, or none where they are no interval.
pub fn interval(heap: Global, side: Side) -> Result<Option<Digits>, AllocError> {
    let level = usize::from(side.level);
    let Some(mut digits) = spelled(heap, side.first)? else {
        return Ok(None);
    };
    if level > MOST || digits.iter().skip(level).any(|third| *third != Third::Low) {
        return Ok(None);
    }
    digits.truncate(level);
    Ok(Some(digits))
}

impl From<Third> for u32 {
    fn from(third: Third) -> u32 {
        third as u32
    }
}

// The number of the digits with one digit after them as often as there is room.
fn filled<D: Copy + Into<u32>>(digits: &[D], with: u32) -> u32 {
    digits
        .iter()
        .map(|digit| (*digit).into())
        .chain(iter::repeat(with))
        .take(MOST)
        .fold(0u32, |number, digit| {
            number.wrapping_mul(3).wrapping_add(digit)
        })
}

// The first cell.
pub fn first_cell<D: Copy + Into<u32>>(digits: &[D]) -> u32 {
    filled(digits, Third::Low.into())
}

// The middle cell: in the middle third, of that in the middle third, and so on.
pub fn middle_cell<D: Copy + Into<u32>>(digits: &[D]) -> u32 {
    filled(digits, Third::Middle.into())
}

// A third of an interval.
pub fn part<D: Copy>(heap: Global, digits: &[D], which: D) -> Result<Vec<D>, AllocError> {
    let mut all = Vec::from_slice(heap, digits)?;
    all.push(which)?;
    Ok(all)
}

// The first cell and the level of an interval.
impl<D: Copy + Into<u32>> From<&Vec<D>> for Side {
    fn from(digits: &Vec<D>) -> Side {
        Side {
            first: first_cell(digits),
            level: u8::try_from(digits.len()).unwrap_or(0),
        }
    }
}
