// Reading the item at the front of some bytes.
ghost use Rattle.record.specs.Reading.{Reads, ReadsAll};

use crate::item::{Item, Mark, Named, Unread};
use hull::hull::record::HULL_MARK;
use order::answer::Answer;
use policy::recordable::EVERY_MARK;

// The marks of the policies are their own.
const EVERY_1: u8 = EVERY_MARK[0];

const EVERY_2: u8 = EVERY_MARK[1];

const HULL_1: u8 = HULL_MARK[0];

const HULL_2: u8 = HULL_MARK[1];

// The item at the front of some bytes, and the bytes after it.
pub fn read(bytes: &[u8]) -> Result<(Item, &[u8]), Unread>
    ensures reads { Reads bytes.now result }
    ensures all { ReadsAll bytes.now result }
{
    match bytes {
        [b'B', b'G', n, f, rest @ ..] => Ok((Item::Begin(*n, *f), rest)),
        [b'V', b'L', a, b, c, d, rest @ ..] => Ok((
            Item::Answer(Answer::Reading(i32::from_be_bytes([*a, *b, *c, *d]))),
            rest,
        )),
        [b'N', b'F', rest @ ..] => Ok((Item::Answer(Answer::NotFeasible), rest)),
        [b'C', b'P', m, rest @ ..] => Ok((Item::Cap(*m), rest)),
        [EVERY_1, EVERY_2, rest @ ..] => Ok((Item::Round(Named::Every), rest)),
        [HULL_1, HULL_2, high, low, rest @ ..] => Ok((
            Item::Round(Named::Hull(u16::from_be_bytes([*high, *low]))),
            rest,
        )),
        [b'B', b'G', ..] => Err(Unread::BodyCut(Mark::Begin)),
        [b'V', b'L', ..] => Err(Unread::BodyCut(Mark::Value)),
        [b'C', b'P', ..] => Err(Unread::BodyCut(Mark::Cap)),
        [HULL_1, HULL_2, ..] => Err(Unread::BodyCut(Mark::Hull)),
        [_, _, ..] => Err(Unread::Unknown),
        [] | [_] => Err(Unread::MarkCut),
    }
}
