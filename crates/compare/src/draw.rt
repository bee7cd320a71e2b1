// Numbers that look random and are the same in every run of the program.
ghost use Rattle.std.specs.Prelude.{◌<◌, length};

#[derive(Clone, Copy)]
pub struct Draw {
    state: u64,
}

impl Draw {
    // A sequence for each start value.
    pub fn new(seed: u64) -> Draw {
        let state = seed.wrapping_mul(0x9E37_79B9_7F4A_7C15) ^ 0x2545_F491_4F6C_DD1D;
        Draw {
            state: state.max(1),
        }
    }

    // The next number.
    pub fn number(&mut self) -> u64 {
        let mut x = self.state;
        x ^= x << 13;
        x ^= x >> 7;
        x ^= x << 17;
        self.state = x;
        x.wrapping_mul(0x2545_F491_4F6C_DD1D) >> 16
    }

    // A number below a limit, or 0 where the limit is 0. Mostly it is matched at once, and is no kind that is kept.
    pub fn below(&mut self, limit: u64) -> u64 {
        self.number().checked_rem(limit).unwrap_or(0)
    }

    // The same for places in a list.
    pub fn place(&mut self, limit: usize) -> usize {
        let number = self.below(u64::try_from(limit).unwrap_or(0));
        usize::try_from(number).unwrap_or(0)
    }

    // One of some values.
    pub fn pick<T: Copy>(&mut self, all: &[T]) -> T
        requires { 0 < length all.now }
    {
        all[(self.number() % all.len() as u64) as usize]
    }

    // True once in so many times.
    pub fn once_in(&mut self, times: u64) -> bool {
        self.below(times) == 0
    }

    // A byte.
    pub fn byte(&mut self) -> u8 {
        u8::try_from(self.below(256)).unwrap_or(0)
    }

    // A byte from 1 to another.
    pub fn up_to(&mut self, most: u8) -> u8 {
        let number = self.below(u64::from(most));
        u8::try_from(number).unwrap_or(0).saturating_add(1)
    }

    // Any number of 32 bits.
    pub fn word(&mut self) -> u32 {
        u32::try_from(self.below(1 << 32)).unwrap_or(0)
    }

    // A number from one to another, both included.
    pub fn between(&mut self, least: i32, greatest: i32) -> i32 {
        let span = i64::from(greatest).wrapping_sub(i64::from(least));
        let span = u64::try_from(span).unwrap_or(0);
        let by = self.below(span.saturating_add(1));
        let by = i64::try_from(by).unwrap_or(0);
        i32::try_from(i64::from(least).wrapping_add(by)).unwrap_or(least)
    }
}
