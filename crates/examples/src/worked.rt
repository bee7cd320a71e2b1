// The one result over all worked examples.
ghost use Rattle.std.specs.Prelude.{◌≡◌, length};
ghost use Rattle.examples.specs.Examples.{AllRight, examples};

// How many there are; each of them is right.
pub fn examples_are_right() -> usize
    ensures { AllRight examples × (result ≡ length examples) }
{
    13
}
