ghost use Rattle.mvo_ckpt.specs.Laws.{CheckpointKeepsRows, StaysApart, NamesOthers, LeavesOthers};
ghost use Rattle.mvo_ckpt.specs.Laws.{GivesEntries, IsFewEnough, AreLastPuts};
ghost use Rattle.mvo_ckpt.specs.Laws.{PlacesTakenOver};

/// The laws of a checkpoint of some groups. The live records that it leaves, with those of the new
/// pair last, give as rows those before after the groups, and no two of them have one key. What a
/// delta file gains are numbers of records that it doesn't name yet, and with them it leaves the
/// live records whose keys aren't written. The records of the groups of a segment keep the rules
/// of a data file and are no more than a pair may have; they are the puts that no later write of
/// their key follows. Where a checkpoint is taken over, each live record that it leaves has its
/// place. The call does nothing.
pub fn laws_of_checkpoint()
    ensures rows { CheckpointKeepsRows }
    ensures apart { StaysApart }
    ensures numbers { NamesOthers }
    ensures left { LeavesOthers }
    ensures entries { GivesEntries }
    ensures few { IsFewEnough }
    ensures set { AreLastPuts }
    ensures taken { PlacesTakenOver }
{}
