// How many sides of a box are long, by its rank.
ghost use Rattle.std.specs.Prelude.{◌≡◌, ◌-◌, ◌%◌};

use super::Shape;

impl Shape {
    // The sides of a box of a rank that are of its lowest level.
    pub fn long_sides(&self, rank: usize) -> usize
        ensures { result ≡ self.now.n - rank % self.now.n }
    {
        let n = usize::from(self.n);
        n - rank % n
    }
}
