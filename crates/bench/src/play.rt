// Playing searches of either implementation round by round, and the time of any work.
use crate::fail::Fail;
use std::rt::Clock;
use std::time::{Duration, Instant};

// What plays rounds on a table of one implementation.
pub trait Play {
    // a search at rest
    type Rest: Drop;

    fn boxes(rest: &Self::Rest) -> usize;

    // From rest to rest.
    fn round(&mut self, rest: Self::Rest) -> Result<Self::Rest, Fail>;
}

// Plays rounds up to so many boxes.
pub fn play_up_to<P: Play>(player: &mut P, rest: P::Rest, boxes: usize) -> Result<P::Rest, Fail> {
    let mut rest = rest;
    // Each round adds boxes, so as many rounds are enough; as a `while` what makes it end is not found.
    for _round in 0..boxes {
        if P::boxes(&rest) >= boxes {
            break;
        }
        rest = player.round(rest)?;
    }
    Ok(rest)
}

// What some work gives, and the time that it takes.
pub fn timed<T: Drop, F: FnOnce() -> Result<T, Fail>>(
    rt: &impl Clock,
    work: F,
) -> Result<(T, Duration), Fail>
    requires { F.IsAlwaysCallable work }
{
    let start = Instant::now(rt)?;
    let made = work()?;
    Ok((made, start.elapsed(rt)?))
}
