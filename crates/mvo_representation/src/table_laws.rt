ghost use Rattle.mvo_representation.specs.TableLaws.{TellsPhases, TellsUnfinished};
ghost use Rattle.mvo_representation.specs.TableLaws.{TellsWhyNotBegun, TellsOldestBegin};
ghost use Rattle.mvo_representation.specs.TableLaws.{TellsLowWater};

/// The laws of the transaction table, whatever is kept of each transaction: where each stands, how
/// many are unfinished, why none may begin, the oldest begin and the low-water are those of the
/// state. The call does nothing.
pub fn laws_of_table<P>()
    ensures phases { TellsPhases P }
    ensures unfinished { TellsUnfinished P }
    ensures why_not_begun { TellsWhyNotBegun P }
    ensures oldest_begin { TellsOldestBegin P }
    ensures low_water { TellsLowWater P }
{}
