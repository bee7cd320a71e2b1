// Replaying a record, item by item.
use super::frame::Frame;
use super::going::Going;
use super::lines::{Answer, Table};
use super::policies::Policy;
use super::still::Still;
use super::stop::{Cause, RefusedAt, Stop};

// What an item tells.
#[derive(Clone, Copy, PartialEq, Eq)]
enum Kind {
    Begin,
    Reading,
    NotFeasible,
    Cap,
    Every,
    Hull,
}

// An item with its numbers.
#[derive(Clone, Copy)]
enum Item {
    Begin(Frame),
    Answer(Answer),
    Cap(u8),
    Every,
    Hull(u16),
}

// What has to come next, with what was told before.
#[derive(Drop)]
enum Due {
    Start,
    Middle(Frame),
    Rest(Still),
    Capped(Still, u8),
    Point(Going, usize),
}

impl TryFrom<[u8; 2]> for Kind {
    type Error = Cause;

    fn try_from(mark: [u8; 2]) -> Result<Kind, Cause> {
        match &mark {
            b"BG" => Ok(Kind::Begin),
            b"VL" => Ok(Kind::Reading),
            b"NF" => Ok(Kind::NotFeasible),
            b"CP" => Ok(Kind::Cap),
            b"RE" => Ok(Kind::Every),
            b"RH" => Ok(Kind::Hull),
            _ => Err(Cause::UnknownMark),
        }
    }
}

impl Kind {
    // The item whose numbers the bytes begin with, and the bytes after it; none where they end too soon.
    fn item(self, bytes: &[u8]) -> Option<(Item, &[u8])> {
        match (self, bytes) {
            (Kind::Begin, [n, finest, rest @ ..]) => {
                let (n, finest) = (*n, *finest);
                Some((Item::Begin(Frame { n, finest }), rest))
            }
            (Kind::Reading, [a, b, c, d, rest @ ..]) => {
                let reading = i32::from_be_bytes([*a, *b, *c, *d]);
                Some((Item::Answer(Answer::Reading(reading)), rest))
            }
            (Kind::NotFeasible, rest) => Some((Item::Answer(Answer::NotFeasible), rest)),
            (Kind::Cap, [most, rest @ ..]) => Some((Item::Cap(*most), rest)),
            (Kind::Every, rest) => Some((Item::Every, rest)),
            (Kind::Hull, [high, low, rest @ ..]) => {
                let share = u16::from(*high).wrapping_mul(256);
                Some((Item::Hull(share.wrapping_add(u16::from(*low))), rest))
            }
            _ => None,
        }
    }
}

impl Due {
    // Whether an item may come.
    fn takes(&self, kind: Kind) -> bool {
        match self {
            Due::Start => kind == Kind::Begin,
            Due::Middle(_) | Due::Point(_, _) => {
                matches!(kind, Kind::Reading | Kind::NotFeasible)
            }
            Due::Rest(_) => matches!(kind, Kind::Cap | Kind::Every | Kind::Hull),
            Due::Capped(_, _) => matches!(kind, Kind::Every | Kind::Hull),
        }
    }

    // The item that the bytes begin with, and the bytes after it.
    fn read<'a>(&self, bytes: &'a [u8]) -> Result<(Item, &'a [u8]), Cause> {
        let (mark, body) = bytes.split_first_chunk::<2>().ok_or(Cause::CutShort)?;
        let kind = Kind::try_from(*mark)?;
        if !self.takes(kind) {
            return Err(Cause::OutOfTurn);
        }
        kind.item(body).ok_or(Cause::CutShort)
    }

    // An answer to what is due.
    fn answer(self, answer: Answer, table: &mut Table<'_>) -> Result<Due, Stop> {
        let answer = answer.allowed()?;
        match self {
            Due::Middle(frame) => Ok(Due::Rest(Still::begin(frame, answer, table.lines)?)),
            Due::Point(going, point) => {
                going.note(point, answer, table.lines);
                let next = point.saturating_add(1);
                if next >= going.points {
                    return Ok(Due::Rest(going.close(table)?));
                }
                Ok(Due::Point(going, next))
            }
            _ => Err(Stop::Refused(Cause::OutOfTurn)),
        }
    }

    // A round by a policy, under the cap that is due.
    fn open(self, policy: Policy, table: &mut Table<'_>) -> Result<Due, Stop> {
        match self {
            Due::Rest(still) => Ok(Due::Point(still.open(policy, table)?, 0)),
            Due::Capped(still, most) => {
                let policy = policy.capped(most)?;
                Ok(Due::Point(still.open(policy, table)?, 0))
            }
            _ => Err(Stop::Refused(Cause::OutOfTurn)),
        }
    }

    // A cap, at rest.
    fn cap(self, most: u8) -> Result<Due, Cause> {
        let _ = Policy::every().capped(most)?;
        match self {
            Due::Rest(still) => Ok(Due::Capped(still, most)),
            _ => Err(Cause::OutOfTurn),
        }
    }

    // What is due after an item.
    fn step(self, item: Item, table: &mut Table<'_>) -> Result<Due, Stop> {
        match item {
            Item::Begin(frame) => Ok(Due::Middle(frame)),
            Item::Answer(answer) => self.answer(answer, table),
            Item::Cap(most) => Ok(self.cap(most)?),
            Item::Every => self.open(Policy::every(), table),
            Item::Hull(share) => self.open(Policy::hull(share)?, table),
        }
    }
}

// Replays a record on a table.
pub fn replay(bytes: &[u8], table: &mut Table<'_>) -> Result<Still, Stop<RefusedAt>> {
    let mut due = Due::Start;
    let mut rest = bytes;
    // at most as often as there are bytes; that a `while` ends would need a contract of `read`
    for _ in bytes {
        if rest.is_empty() {
            break;
        }
        let place = bytes.len().saturating_sub(rest.len());
        let (item, after) = due.read(rest).map_err(|cause| cause.at(place))?;
        due = due.step(item, table).map_err(|stop| stop.at(place))?;
        rest = after;
    }
    match due {
        Due::Rest(still) => Ok(still),
        _ => Err(Stop::Refused(RefusedAt {
            cause: Cause::CutShort,
            place: bytes.len(),
        })),
    }
}
