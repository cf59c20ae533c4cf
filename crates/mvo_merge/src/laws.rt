ghost use Rattle.mvo_merge.specs.Laws.{GainedAreLate, MergeLeavesOthers, NoneIsLate, AllAreLive};
ghost use Rattle.mvo_merge.specs.Laws.{LiveInOne, LiveInEither, MergeKeepsRows, MergeStaysApart, CountsLive, MergeGivesEntries};
ghost use Rattle.mvo_merge.specs.Laws.{HasBoth, MergeIsFewEnough, GivesNumbers, LoadsMerged};
ghost use Rattle.mvo_merge.specs.Laws.{OwnKeys, PlacesMerged};

/// The laws of a merge of two neighbouring pairs, whose deltas may gain numbers of live records
/// while it runs. Live in the merged pair is exactly what is live in one of the two, each record
/// under its rank; so the rows stay, and no two live records have one key. The records keep the
/// rules of a data file and are no more than a pair may have, where the counts say so; the late
/// numbers keep those of a delta file; and where the two files hold them, they load as the merged
/// pair. Where the places are moved, each live record has its place. The call does nothing.
pub fn laws_of_merge()
    ensures gained { GainedAreLate }
    ensures others { MergeLeavesOthers }
    ensures none { NoneIsLate }
    ensures all { AllAreLive }
    ensures live { LiveInOne }
    ensures either { LiveInEither }
    ensures rows { MergeKeepsRows }
    ensures apart { MergeStaysApart }
    ensures counted { CountsLive }
    ensures entries { MergeGivesEntries }
    ensures both { HasBoth }
    ensures few { MergeIsFewEnough }
    ensures numbers { GivesNumbers }
    ensures loads { LoadsMerged }
    ensures keys { OwnKeys }
    ensures places { PlacesMerged }
{}
