ghost use Rattle.mvo_format.specs.declared.format.TheConstants.{FIRST_FORMAT, LAST_FORMAT};
ghost use Rattle.mvo_format.specs.Formats.{IsFirstFormat, IsLastFormat, KnownLater, LaterAllows};

/// The laws of versions: what each allows, in numbers, and that a later one allows what an earlier
/// one does. The call does nothing.
pub fn laws_of_formats()
    ensures first { IsFirstFormat FIRST_FORMAT }
    ensures last { IsLastFormat LAST_FORMAT }
    ensures known { KnownLater }
    ensures more { LaterAllows }
{}
