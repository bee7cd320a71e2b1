// How a record names a hull.
ghost use Rattle.std.specs.Prelude.{codes};

use super::Hull;
use policy::recordable::Recordable;

// The mark of Hull: a pattern can name a constant of a module, and none of a trait.
pub const HULL_MARK: [u8; 2] = *b"RH";

impl Recordable for Hull {
    ghost mark = { codes "RH" };

    ghost body = { 2 };

    const MARK: [u8; 2] = HULL_MARK;

    const BODY: usize = 2;

    fn mark_bytes() -> [u8; 2] {
        Self::MARK
    }

    fn body_len() -> usize {
        Self::BODY
    }
}
