ghost use Rattle.mvo_keep.specs.Serving.{NobodyStarves};

/// The law of the turns of a keeper. Of files, stored commits and versions each is served within so
/// many chores but for flushes, whatever the store comes to meanwhile, where it always has
/// something to do. The call does nothing.
pub fn laws_of_turns()
    ensures { NobodyStarves }
{}
