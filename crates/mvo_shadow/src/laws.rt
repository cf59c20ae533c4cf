ghost use Rattle.mvo_shadow.specs.Laws.{CausesAreAlike, EachCallGoesAlike, RunsGoAlike};
ghost use Rattle.mvo_shadow.specs.Laws.{EachOwnCallIsOne, OwnRunsAreRuns};

/// The laws of the shadow. A core that is given works which were all made on it refuses each call
/// as the theory does on the full state, and leaves the shadow of what the theory leaves; so each
/// list of calls of the theory is one there, and each one there is one of the theory. The call does
/// nothing.
pub fn laws_of_shadows()
    ensures causes { CausesAreAlike }
    ensures calls { EachCallGoesAlike }
    ensures runs { RunsGoAlike }
    ensures back { EachOwnCallIsOne }
    ensures ones { OwnRunsAreRuns }
{}
