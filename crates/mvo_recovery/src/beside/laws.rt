ghost use Rattle.mvo_recovery.specs.beside.Laws.{SeenAtRead, SeenStays, SeenBesideNumbers, SeenWhereCountsStay};
ghost use Rattle.mvo_recovery.specs.beside.Laws.{SeenBesideInstall, StaysUnnamed, FindsLate};
ghost use Rattle.mvo_recovery.specs.beside.Laws.{MergeBesideIsReady, InstallBesideKeeps, PlacesBeside};
ghost use Rattle.mvo_recovery.specs.beside.Runs.{RunsKeepAll};

use mvo_disk::Disk;

/// The laws of a merge that runs beside checkpoints. What it saw of its two pairs stays: while
/// other files are written, while numbers are written behind those of a delta file that count, and
/// where a checkpoint is installed. The numbers that count beyond those that it saw are those of
/// live records that it took, and the pairs' other records are live. Where its files hold the
/// records that it saw and these numbers, renumbered, one pair for the two may be installed, which
/// changes neither rows nor mark, and moving the places brings them up to date. Over each run of
/// such steps the rows and the mark stay, and a stop at any moment leaves them. The call does
/// nothing.
pub fn laws_of_merge_beside<D: Disk>(old: &D, new: &D)
    ensures begins { SeenAtRead (D.content old.now) }
    ensures stays { SeenStays (D.content old.now) (D.content new.now) }
    ensures numbers { SeenBesideNumbers (D.content old.now) (D.content new.now) }
    ensures counts { SeenWhereCountsStay (D.content old.now) (D.content new.now) }
    ensures install { SeenBesideInstall (D.content old.now) }
    ensures unnamed { StaysUnnamed }
    ensures late { FindsLate (D.content old.now) }
    ensures ready { MergeBesideIsReady (D.content old.now) (D.may_leave old.now) }
    ensures keeps { InstallBesideKeeps (D.content old.now) (D.may_leave old.now) }
    ensures places { PlacesBeside }
    ensures runs { RunsKeepAll D.moment D.left_since D.content D.may_leave }
{}
