// The two points of a long side.

// The point a third of the side below the middle of its box, or the one a third above it.
#[derive(Clone, Copy)]
pub enum Side {
    Low,
    High,
}
