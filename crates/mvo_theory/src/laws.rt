ghost use Rattle.mvo_theory.specs.Finished.{FinishingEnds};

/// The law of finishing: how many calls it takes at most, by what the transaction was answered. The
/// call does nothing.
pub fn laws_of_finishing()
    ensures { FinishingEnds }
{}
