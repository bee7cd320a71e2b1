// A set of ranks, 0 to 113, as bits.
ghost use Rattle.std.specs.Prelude.{◌^◌, ◌<◌};

pub mod lowest;
pub mod members;
pub mod rising;

// How many ranks there are.
pub const RANKS: usize = 114;

// Rank r is bit r of `low`, or bit r - 64 of `high`; no bit from 114 on is set.
#[derive(Clone, Copy)]
pub struct RankSet {
    low: u64,
    high: u64,
    ghost whole: { low < 2 ^ 64 },
    ghost short: { high < 2 ^ 50 },
}
