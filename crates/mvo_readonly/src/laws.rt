ghost use Rattle.mvo_readonly.specs.Laws.{RepliesAreSerial, ReadsAtBegin, MarkedRowsAreOthers, WholeTaleIsLegal, TaleLeavesRows, GroupsAreOthers, TaleWeighs, TrimIsLookedUp, OpensWhole, EachCallKeepsWhole, WholePhasesAreTraced, CoreGoesByRun, CoreStaysBelow, EachCallComes};
ghost use Rattle.mvo_readonly.specs.rests.Answers.{ClockIsDrawn, AnswersAreWhole, ChecksAreWhole, SettlesAtEnd};
ghost use Rattle.mvo_readonly.specs.rests.Laws.{WholeTraceJustifies, SnapshotsAreWhole, CoreIsTraced, EachWholeCallTells, EachWholeSettlingTells, OpensFollowed, EachWholeCallFollows};

/// The laws of replies with read-only transactions. The replies of all are serial, a read-only one
/// standing at its begin; it is told what one map shows there; and the rows up to a mark are those
/// that the others leave. The call does nothing.
pub fn laws_of_read_only_replies()
    ensures serial { RepliesAreSerial }
    ensures reads { ReadsAtBegin }
    ensures marked { MarkedRowsAreOthers }
{}

/// The laws of the stored commits with read-only ones. They are legal from the start of the tale,
/// leave the rows that the others leave, and give groups nothing; each commit above the start is
/// stored once; and a trim is refused for a read-only transaction just where it would go up to its
/// begin. The call does nothing.
pub fn laws_of_read_only_tale()
    ensures legal { WholeTaleIsLegal }
    ensures leaves { TaleLeavesRows }
    ensures groups { GroupsAreOthers }
    ensures weighs { TaleWeighs }
    ensures trims { TrimIsLookedUp }
{}

/// The laws of the calls of a state with its read-only transactions. Each keeps the state as its
/// whole trace says; and the core of the others goes by calls of its own, so that what is known of
/// a core without read-only transactions is known of it. The call does nothing.
pub fn laws_of_read_only_calls()
    ensures opens { OpensWhole }
    ensures keeps { EachCallKeepsWhole }
    ensures phases { WholePhasesAreTraced }
    ensures core { CoreGoesByRun }
    ensures stays { CoreStaysBelow }
    ensures comes { EachCallComes }
{}

/// The laws of the whole trace. A state with its read-only transactions is followed by two courses,
/// the whole one and the core's own, from its opening on and over each call; what a call comes to
/// is justified by the whole trace, and what an Active transaction sees is read off it. The call
/// does nothing.
pub fn laws_of_read_only_trace()
    ensures opens { OpensFollowed }
    ensures keeps { EachWholeCallFollows }
    ensures justified { WholeTraceJustifies }
    ensures snapshots { SnapshotsAreWhole }
    ensures traced { CoreIsTraced }
{}

/// The laws of answers, by the whole trace, of read-only transactions and of the others beside
/// them: the clock is what was drawn, an operation is answered on what its transaction sees, a
/// check is Valid where no entry is left behind it, and one that is settled is Preparing with its
/// end. The call does nothing.
pub fn laws_of_read_only_answers()
    ensures clock { ClockIsDrawn }
    ensures answers { AnswersAreWhole }
    ensures checks { ChecksAreWhole }
    ensures ends { SettlesAtEnd }
{}

/// The laws of resting, by the whole course: of read-only transactions, and of the others beside
/// them. DependencyAborted is answered exactly where one on whom the transaction rests was aborted,
/// and names the first; settling waits exactly while one of them is Preparing, for the one with the
/// least end. The call does nothing.
pub fn laws_of_read_only_rests()
    ensures tells { EachWholeCallTells }
    ensures settles { EachWholeSettlingTells }
{}
