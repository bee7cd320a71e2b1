// Each call has one outcome.
ghost use Rattle.search.specs.Once.{OneOutcome};

// The relations of the calls fix result and memory for each input, waiting apart.
pub fn outcomes_are_fixed()
    ensures { OneOutcome }
{}
