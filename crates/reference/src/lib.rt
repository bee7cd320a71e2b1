// A second implementation of the whole method, proved safe and ending, nothing more.
// It is written from docs/ alone, by other means than the package: it shares no code, no types and no definitions
// with the other crates. Numbers go in and numbers come out.
#![tactic(auto)]

pub mod cutting;
pub mod digits;
pub mod frame;
pub mod front;
pub mod going;
pub mod hull;
pub mod lines;
pub mod pieces;
pub mod policies;
pub mod replay;
pub mod still;
pub mod stop;
