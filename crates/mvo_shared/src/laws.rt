ghost use Rattle.mvo_shared.specs.Laws.{TypeStays, AnswersAreSerial, OpeningShares, BeginShares};
ghost use Rattle.mvo_shared.specs.Laws.{LookShares, PrecommitShares, CheckShares, AbortShares};
ghost use Rattle.mvo_shared.specs.Laws.{SharedTaleIsLegal, QuietLooksChangeNothing, LoudLooksRegister};
ghost use Rattle.mvo_shared.specs.Laws.{OwnAnswersAreOnSnapshots, OwnLooksMatch, OwnWritesMatch};
ghost use Rattle.mvo_shared.specs.Laws.{OwnEntriesMatch, OrderStays, WriteShares};
ghost use Rattle.mvo_shared.specs.Laws.{LastCheckShares, SettleShares, TrimShares};
ghost use Rattle.mvo_shared.specs.GivenLaws.{EachGivenCallHolds, GivenRunsHold, GivenRunsAreLegal};
ghost use Rattle.mvo_shared.specs.GivenLaws.{EachOwnCallKeeps, OwnRunsAreSerial};

/// The laws of works outside the core. On every map that shows what its entries keep, the answers
/// of a work are serial; a core keeps its tale legal whatever works it is given; a look needs the
/// exclusive side exactly where that side would change something; and works that were made on this
/// core are told what their snapshots answer, and never meet a mismatch. The call does nothing.
pub fn laws_of_works()
    ensures kind { TypeStays }
    ensures order { OrderStays }
    ensures serial { AnswersAreSerial }
    ensures opening { OpeningShares }
    ensures begin { BeginShares }
    ensures look { LookShares }
    ensures write { WriteShares }
    ensures precommit { PrecommitShares }
    ensures check { CheckShares }
    ensures last { LastCheckShares }
    ensures settle { SettleShares }
    ensures trim { TrimShares }
    ensures abort { AbortShares }
    ensures tale { SharedTaleIsLegal }
    ensures quiet { QuietLooksChangeNothing }
    ensures loud { LoudLooksRegister }
    ensures answers { OwnAnswersAreOnSnapshots }
    ensures looks { OwnLooksMatch }
    ensures writes { OwnWritesMatch }
    ensures found { OwnEntriesMatch }
{}

/// The laws of a core that is given works with its calls. Whatever works they are, each call keeps
/// what the core keeps, so over each list of calls what the settled ones were told is legal. Where
/// all works are made on this core, each operation is told what the serial step answers on its
/// snapshot, and no call is refused with a mismatch. The call does nothing.
pub fn laws_of_given_works()
    ensures holds { EachGivenCallHolds }
    ensures runs { GivenRunsHold }
    ensures legal { GivenRunsAreLegal }
    ensures keeps { EachOwnCallKeeps }
    ensures serial { OwnRunsAreSerial }
{}
