ghost use Rattle.mvo_core.specs.WholeStanding.{OthersLeadWhole, ReadersMove};
ghost use Rattle.mvo_core.specs.WholeStanding.{ReaderBegins, ReaderGoesOn};

/// The laws of a core with read-only transactions. A call of another leads the whole state on as it
/// leads the core of the others, and leaves the read-only ones as they are; and where these change
/// beside the others, with what is kept of one and its place in the tale, the core stands for the
/// same state of the others. So a read-only one begins, and goes on by its precommit and its
/// checks. The call does nothing.
pub fn laws_of_whole_steps()
    ensures others { OthersLeadWhole }
    ensures moves { ReadersMove }
    ensures begins { ReaderBegins }
    ensures goes_on { ReaderGoesOn }
{}
