// The policy Hull, by trying slopes.
use super::digits::MOST;
use super::front::{Front, Ticket};
use super::lines::Answer;
use std::alloc::{AllocError, Global};

// The rank taken at a level, with its size and its value.
#[derive(Clone, Copy)]
struct Size {
    rank: usize,
    d: i128,
    v: i128,
}

// A fraction, both numbers above 0.
#[derive(Clone, Copy)]
struct Slope {
    p: i128,
    q: i128,
}

// The sizes present, and the least reading less the margin.
#[derive(Drop)]
struct Chart {
    sizes: Vec<Size>,
    floor: i128,
}

// Steeper than any slope between two sizes, and than any to the margin.
const STEEP: Slope = Slope {
    p: 1_000_000_000_000,
    q: 1,
};

// The cells of a side of a level.
fn length(level: usize) -> i128 {
    (level..MOST).fold(1, |cells: i128, _| cells.wrapping_mul(3))
}

impl Front {
    // The entry of a level that goes first, the lower rank on a tie.
    fn taken(&self, level: usize) -> Option<Ticket> {
        self.firsts
            .iter()
            .copied()
            .filter(|ticket| self.level(ticket.rank) == level)
            .min_by_key(|ticket| ticket.answer)
    }

    // The value of an answer: "not feasible" counts one above the greatest reading.
    fn value(&self, answer: Answer) -> i128 {
        match answer {
            Answer::Reading(x) => i128::from(x),
            Answer::NotFeasible => self
                .readings
                .map_or(0, |(_, greatest)| i128::from(greatest).wrapping_add(1)),
        }
    }

    // The size of a level, if it is present.
    fn size(&self, level: usize) -> Option<Size> {
        self.taken(level).map(|ticket| Size {
            rank: ticket.rank,
            d: length(level),
            v: self.value(ticket.answer),
        })
    }

    // The least reading less the margin.
    fn floor(&self, share: u16) -> i128 {
        let least = self.readings.map_or(0, |(least, _)| i128::from(least));
        let margin = least.wrapping_abs().wrapping_mul(i128::from(share)) / 10_000;
        least.wrapping_sub(margin)
    }
}

impl Size {
    // How it stands under a slope, times the slope's denominator.
    fn stand(self, slope: Slope) -> i128 {
        let up = slope.q.wrapping_mul(self.v);
        up.wrapping_sub(slope.p.wrapping_mul(self.d))
    }
}

impl Slope {
    // The fraction of two numbers if it is a slope.
    fn new(p: i128, q: i128) -> Option<Slope> {
        (p > 0 && q > 0).then_some(Slope { p, q })
    }

    // The slope from one size up to another, if there is one.
    fn between(one: Size, other: Size) -> Option<Slope> {
        Slope::new(one.v.wrapping_sub(other.v), one.d.wrapping_sub(other.d))
    }
}

impl Chart {
    fn new(heap: Global, front: &Front, share: u16) -> Result<Chart, AllocError> {
        Ok(Chart {
            sizes: (0..MOST)
                .filter_map(|level| front.size(level))
                .collect(heap)?,
            floor: front.floor(share),
        })
    }

    // All slopes to try: those between two sizes, and those to the margin.
    fn slopes(&self, heap: Global) -> Result<Vec<Slope>, AllocError> {
        let mut slopes = vec![in heap; STEEP]?;
        for one in &self.sizes {
            slopes.extend(Slope::new(one.v.wrapping_sub(self.floor), one.d))?;
            slopes.extend(
                self.sizes
                    .iter()
                    .filter_map(|other| Slope::between(*one, *other)),
            )?;
        }
        Ok(slopes)
    }

    // Whether a slope makes a size potentially optimal.
    fn makes_optimal(&self, slope: Slope, one: Size) -> bool {
        let stands = one.stand(slope);
        self.sizes.iter().all(|other| stands <= other.stand(slope))
            && stands <= slope.q.wrapping_mul(self.floor)
    }
}

// The ranks that Hull chooses, rising.
pub fn hull_ranks(heap: Global, front: &Front, share: u16) -> Result<Vec<usize>, AllocError> {
    let chart = Chart::new(heap, front, share)?;
    let slopes = chart.slopes(heap)?;
    chart
        .sizes
        .iter()
        .filter(|one| slopes
            .iter()
            .any(|slope| chart.makes_optimal(*slope, **one)))
        .map(|one| one.rank)
        .collect(heap)
}
