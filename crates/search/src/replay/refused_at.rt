// Where and why a record is refused.
use refusal::Refusal;

// A refused record: why, and at which byte, from 0.
#[derive(Clone, Copy)]
pub struct RefusedAt {
    pub why: Refusal,
    pub place: usize,
}
