ghost use Rattle.mvo_theory.specs.rests.Laws.{EachCallTells, EachSettlingTells, OpensKnowing, EachCallKnows};

/// The laws of resting. In each state that calls lead to, a transaction depends on just those on
/// whom it rests by what happened, and on no others: DependencyAborted is answered exactly where
/// one of them was aborted, and names the first; settling waits exactly while one of them is
/// Preparing, for the one with the least end. The call does nothing.
pub fn laws_of_rests()
    ensures tells { EachCallTells }
    ensures settles { EachSettlingTells }
    ensures opens { OpensKnowing }
    ensures keeps { EachCallKnows }
{}
