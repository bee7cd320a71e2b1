// Policies that a record can name, each by its own mark.
ghost use Rattle.std.specs.Prelude.{◌≡◌, ℕ, List, codes};

use crate::every::Every;
use crate::policy::Policy;

// The mark of Every: a pattern can name a constant of a module, and none of a trait.
pub const EVERY_MARK: [u8; 2] = *b"RE";

pub trait Recordable: Policy {
    // the two bytes of its mark
    ghost mark: { List ℕ };

    // how many bytes follow the mark
    ghost body: { ℕ };

    const MARK: [u8; 2];

    const BODY: usize;

    // The mark and the length with their promises: a constant of a trait has no clause, so each impl gives both.
    fn mark_bytes() -> [u8; 2]
        ensures { result ≡ mark };

    fn body_len() -> usize
        ensures { result ≡ body };
}

impl Recordable for Every {
    ghost mark = { codes "RE" };

    ghost body = { 0 };

    const MARK: [u8; 2] = EVERY_MARK;

    const BODY: usize = 0;

    fn mark_bytes() -> [u8; 2] {
        Self::MARK
    }

    fn body_len() -> usize {
        Self::BODY
    }
}
