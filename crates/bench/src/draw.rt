// Readings that look random and are the same at each run: those of docs/PERFORMANCE.md, so not `compare`'s generator.
// The step of the state is written in both: two programs share no file, and a crate for five lines is no plainer.

#[derive(Clone, Copy)]
pub struct Draw {
    state: u64,
}

impl Draw {
    pub fn new(seed: u64) -> Draw {
        Draw {
            state: seed.wrapping_mul(0x9E37_79B9_7F4A_7C15) | 1,
        }
    }

    // A reading from 0 to 999,999,999.
    pub fn reading(&mut self) -> i32 {
        let mut x = self.state;
        x ^= x << 13;
        x ^= x >> 7;
        x ^= x << 17;
        self.state = x;
        i32::try_from((x >> 16) % 1_000_000_000).unwrap_or(0)
    }
}
