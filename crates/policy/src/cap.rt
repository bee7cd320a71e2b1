// The policy that chooses at most so many of another policy's ranks.
ghost use Rattle.std.specs.Prelude.{◌≤◌};

pub mod choice;
pub mod number;

// How many ranks a cap lets through: 1 to 114.
#[derive(Clone, Copy)]
pub struct Most {
    number: u8,
    ghost form: { (1 ≤ number) × (number ≤ 114) },
}

// The other policy may be any, a cap too.
#[derive(Drop)]
pub struct Cap<P> {
    most: Most,
    inner: P,
}
