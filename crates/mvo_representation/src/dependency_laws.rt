ghost use Rattle.mvo_representation.specs.DependencyLaws.{OpenedTable, BeginInTable, WriteInTable};
ghost use Rattle.mvo_representation.specs.DependencyLaws.{AnswerInTable, PrecommitInTable};
ghost use Rattle.mvo_representation.specs.DependencyLaws.{KeyNames, ScanNames, CheckInTable};
ghost use Rattle.mvo_representation.specs.DependencyLaws.{CommitInTable, AbortInTable};
ghost use Rattle.mvo_representation.specs.DependencyLaws.{WordInTable, LeaveInTable, TrimInTable};
ghost use Rattle.mvo_representation.specs.DependencyLaws.{CloseInTable, TellsFlagOfActive};
ghost use Rattle.mvo_representation.specs.DependencyLaws.{TellsFlagOfPreparing, TellsAwaited};
ghost use Rattle.mvo_representation.specs.DependencyLaws.{CountsAwaited};

/// The laws of the transaction table with its dependencies, whatever else is kept of each
/// transaction. What each call does in the table keeps it that of the state: where each stands, and
/// the counters, flags and dependents; so does an operation where those are registered whom the
/// rules name. And what the table tells is what the state has: a transaction's flag, whom it waits
/// for, and whether it waits. The call does nothing.
pub fn laws_of_dependencies<P>()
    ensures opened { OpenedTable P }
    ensures begin { BeginInTable P }
    ensures write { WriteInTable P }
    ensures answer { AnswerInTable P }
    ensures key { KeyNames }
    ensures scan { ScanNames }
    ensures precommit { PrecommitInTable P }
    ensures check { CheckInTable P }
    ensures commit { CommitInTable P }
    ensures abort { AbortInTable P }
    ensures word { WordInTable P }
    ensures leave { LeaveInTable P }
    ensures trim { TrimInTable P }
    ensures close { CloseInTable P }
    ensures flag_of_active { TellsFlagOfActive P }
    ensures flag_of_preparing { TellsFlagOfPreparing P }
    ensures awaited { TellsAwaited P }
    ensures counts { CountsAwaited P }
{}
