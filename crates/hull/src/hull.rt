// A hull: its share, and by topic what it chooses.
ghost use Rattle.std.specs.Prelude.{◌≤◌};

pub mod choice;
pub mod record;
pub mod share;
mod sizes;

// The share that is all of the least reading, in ten thousandths.
const WHOLE: u16 = 10_000;

// The sizes that some slope makes potentially optimal.
// The share is in ten thousandths of the least reading.
#[derive(Clone, Copy)]
pub struct Hull {
    share: u16,
    ghost ok: { share ≤ 10000 },
}
