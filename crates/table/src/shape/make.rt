// Making a shape, after its two checks.
ghost use Rattle.std.specs.Prelude.{◌≡◌, ◌≤◌, Err};
ghost use Rattle.refusal.specs.Checks.{Check, Gives};
ghost use Rattle.refusal.specs.declared.Refusal.TheVariants.{Directions, FinestLevel};

use super::Shape;
use refusal::Refusal;

impl Shape {
    // 1 to 6 directions and a finest level of 1 to 19.
    pub fn new(n: u8, finest: u8) -> Result<Shape, Refusal>
        ensures { Check ((1 ≤ n) × (n ≤ 6)) (result ≡ Err Directions) (Check ((1 ≤ finest) × (finest ≤ 19)) (result ≡ Err FinestLevel) (Gives result (λ s. (s.n ≡ n) × (s.finest ≡ finest)))) }
    {
        if n < 1 || n > 6 {
            return Err(Refusal::Directions);
        }
        if finest < 1 || finest > 19 {
            return Err(Refusal::FinestLevel);
        }
        Ok(Shape { n, finest })
    }
}
