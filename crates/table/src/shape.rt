// How many directions a search has, and how fine its boxes may get.
ghost use Rattle.std.specs.Prelude.{◌≤◌};

pub mod long;
pub mod make;

// The number of directions n, and the finest level.
#[derive(Clone, Copy)]
pub struct Shape {
    pub n: u8,
    pub finest: u8,
    ghost some: { 1 ≤ n },
    ghost few: { n ≤ 6 },
    ghost coarse: { 1 ≤ finest },
    ghost fine: { finest ≤ 19 },
}
