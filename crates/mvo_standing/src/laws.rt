ghost use Rattle.mvo_standing.specs.Laws.{VersionsAreAlike, DependenciesAreAlike};
ghost use Rattle.mvo_standing.specs.Laws.{WordListsAreAlike, StandsAlike, OthersShow};
ghost use Rattle.mvo_standing.specs.Laws.{OthersArePlaced, ShowsOthersUnlessWritten};
ghost use Rattle.mvo_standing.specs.Scans.{PlacesShowScan, OthersAreScanned};
ghost use Rattle.mvo_standing.specs.Together.{OpensTogether, EachCallGoesOn, FitsByWrites};
ghost use Rattle.mvo_standing.specs.Telling.{HoldsHistory, TellsAnswer, GoesOnTold};
ghost use Rattle.mvo_standing.specs.Telling.{ShowsOthersRow, ShowsOthersRange, ShowsOthersToAbsent};
ghost use Rattle.mvo_standing.specs.Telling.{GoesOnBegun, GoesOnWithout};
ghost use Rattle.mvo_standing.specs.Beside.{WorksOpenBeside, WorksStayBeside, WorksBeginBeside};
ghost use Rattle.mvo_standing.specs.Beside.{WorksToldBeside, WorksForgottenBeside};

/// The laws of a core that stands for the shadow of a state: its versions, its table with the
/// dependencies, and its lists of words are those of the shadow just where they are those of the
/// state. So all that the representation says of a history it says of what was written. And the
/// words of others show an Active transaction what the others' writes leave, whatever it wrote
/// itself. The call does nothing.
pub fn laws_of_standing<P>()
    ensures versions { VersionsAreAlike }
    ensures dependencies { DependenciesAreAlike P }
    ensures words { WordListsAreAlike }
    ensures stands { StandsAlike }
    ensures others { OthersShow }
    ensures places { OthersArePlaced }
    ensures unwritten { ShowsOthersUnlessWritten }
    ensures places_show { PlacesShowScan }
    ensures scanned { OthersAreScanned }
{}

/// The laws of a core that goes on with a state at whose shadow it stands, where all works are made
/// on it: it does so from its opening on, over each call, and the groups that it closes have the
/// commits that fit by what they wrote. The call does nothing.
pub fn laws_of_going_on()
    ensures opens { OpensTogether }
    ensures calls { EachCallGoesOn }
    ensures fits { FitsByWrites }
{}

/// The laws of works that are told beside such a core. The work of an Active transaction holds its
/// operations; with one more may come any rows where its entry is kept, and else those that others
/// show there, which its own snapshot shows at a key without an entry, and in each range where it
/// wrote nothing; who isn't in the table is shown them everywhere. It is told what the state
/// answers then, and they stand together after it. One that begins has done nothing, and the work
/// of one that isn't Active may be any. The call does nothing.
pub fn laws_of_telling()
    ensures holds { HoldsHistory }
    ensures answer { TellsAnswer }
    ensures told { GoesOnTold }
    ensures row { ShowsOthersRow }
    ensures range { ShowsOthersRange }
    ensures absent { ShowsOthersToAbsent }
    ensures begun { GoesOnBegun }
    ensures without { GoesOnWithout }
{}

/// The laws of works that go beside a state, whatever core is given them: from the opening on, over
/// each call that leaves them, over a begin, for which nothing has to be done, over an operation
/// that its work was told, and where the work of one that isn't Active is forgotten. The call does
/// nothing.
pub fn laws_of_works_beside()
    ensures opens { WorksOpenBeside }
    ensures stays { WorksStayBeside }
    ensures begins { WorksBeginBeside }
    ensures told { WorksToldBeside }
    ensures forgotten { WorksForgottenBeside }
{}
