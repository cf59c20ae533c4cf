ghost use Rattle.mvo_representation.specs.Laws.{OpensSo, EachCallKeeps, ShowsSnapshot, DependsSo};
ghost use Rattle.mvo_representation.specs.Laws.{ShownIsThere, FreeMayBeEnded, TellsCause};
ghost use Rattle.mvo_representation.specs.Laws.{NamesChange, RowsArePlaced, MeetsWhatCounts};
ghost use Rattle.mvo_representation.specs.OrderLaws.{OrderFalls, OrderHasOwnInFront};
ghost use Rattle.mvo_representation.specs.OrderLaws.{InsertKeepsOrder, DeleteKeepsOrder};
ghost use Rattle.mvo_representation.specs.OrderLaws.{UpdateKeepsOrder, DrawKeepsOrder};
ghost use Rattle.mvo_representation.specs.OrderLaws.{AbortBringsOrder, AlikeStayInOrder};
ghost use Rattle.mvo_representation.specs.OrderLaws.{BeginKeepsOrder, CommitStaysInOrder};
ghost use Rattle.mvo_representation.specs.OrderLaws.{FinishStaysInOrder, LeavingKeepsOrder};
ghost use Rattle.mvo_representation.specs.OrderLaws.{TrimKeepsOrder, RemovalKeepsOrder};
ghost use Rattle.mvo_representation.specs.OrderLaws.{UnheldStaysInOrder, SingleStandInOrder};
ghost use Rattle.mvo_representation.specs.OrderLaws.{OpeningStandsInOrder, FrontsKeepNumbers};
ghost use Rattle.mvo_representation.specs.OrderLaws.{NumbersAreAmong, HolesAreFresh};
ghost use Rattle.mvo_representation.specs.OrderLaws.{AddedIsNow, ChangedIsNow};
ghost use Rattle.mvo_representation.specs.OrderLaws.{ForwardIsSame, UnstampedIsUnseen};
ghost use Rattle.mvo_representation.specs.OrderLaws.{SameStayInOrder};
ghost use Rattle.mvo_representation.specs.WrittenLaws.{NothingIsWritten, InsertIsWritten};
ghost use Rattle.mvo_representation.specs.WrittenLaws.{DeleteIsWritten, UpdateIsWritten};
ghost use Rattle.mvo_representation.specs.WrittenLaws.{OthersKeepWritten, AbsentIsUnnamed};
ghost use Rattle.mvo_representation.specs.WordLaws.{OpeningHasLists, BeginKeepsLists};
ghost use Rattle.mvo_representation.specs.WordLaws.{InsertKeepsLists, DeleteKeepsLists};
ghost use Rattle.mvo_representation.specs.WordLaws.{UpdateKeepsLists, AnswerKeepsLists};
ghost use Rattle.mvo_representation.specs.WordLaws.{PrecommitKeepsLists, CheckKeepsLists};
ghost use Rattle.mvo_representation.specs.WordLaws.{CommitKeepsLists, AbortKeepsLists};
ghost use Rattle.mvo_representation.specs.WordLaws.{PassingKeepsLists, DoneIsSeen};
ghost use Rattle.mvo_representation.specs.WordLaws.{FinishKeepsLists, LastIsUnnamed};
ghost use Rattle.mvo_representation.specs.WordLaws.{LastKeepsLists, NoneIsUnnamed};
ghost use Rattle.mvo_representation.specs.WordLaws.{LeavingKeepsLists, FinishedIsAlike};
ghost use Rattle.mvo_representation.specs.WordLaws.{FinishedStands, TrimKeepsLists};
ghost use Rattle.mvo_representation.specs.WordLaws.{CloseKeepsLists, RemovalKeepsLists};
ghost use Rattle.mvo_representation.specs.WordLaws.{RoomKeepsLists, ListsAreWritten, OnePutIsLeft};
ghost use Rattle.mvo_representation.specs.WordLaws.{OnePutStands};

/// The laws of the representation. What versions, the transaction table and the indexes say is a
/// state of the theory: when a core opens, and after each call, whatever it comes to. And what the
/// rules answer over versions is what that state answers: what a transaction is shown, on whom it
/// depends then, what it may end, who stands in its way, what others have changed, and which rows
/// and keys a scan meets. The call does nothing.
pub fn laws_of_representation()
    ensures opens { OpensSo }
    ensures keeps { EachCallKeeps }
    ensures shows { ShowsSnapshot }
    ensures depends { DependsSo }
    ensures there { ShownIsThere }
    ensures free { FreeMayBeEnded }
    ensures tells { TellsCause }
    ensures names { NamesChange }
    ensures placed { RowsArePlaced }
    ensures meets { MeetsWhatCounts }
{}

/// The laws of the order in which the versions of a key stand. Where they stand so, their stamps
/// fall and what an Active transaction wrote stands in front, as the walks over them ask. And they
/// do: when a core opens, where versions are put, ended, removed or brought to the front, and as
/// transactions begin, draw their ends, commit, are aborted, are finished and leave. The call does
/// nothing.
pub fn laws_of_standing_order()
    ensures falls { OrderFalls }
    ensures own_in_front { OrderHasOwnInFront }
    ensures insert { InsertKeepsOrder }
    ensures delete { DeleteKeepsOrder }
    ensures update { UpdateKeepsOrder }
    ensures draw { DrawKeepsOrder }
    ensures abort { AbortBringsOrder }
    ensures alike { AlikeStayInOrder }
    ensures same { SameStayInOrder }
    ensures begin { BeginKeepsOrder }
    ensures commit { CommitStaysInOrder }
    ensures finish { FinishStaysInOrder }
    ensures leaving { LeavingKeepsOrder }
    ensures trim { TrimKeepsOrder }
    ensures removal { RemovalKeepsOrder }
    ensures unheld { UnheldStaysInOrder }
    ensures single { SingleStandInOrder }
    ensures opening { OpeningStandsInOrder }
    ensures numbers { FrontsKeepNumbers }
    ensures among { NumbersAreAmong }
    ensures holes { HolesAreFresh }
    ensures added { AddedIsNow }
    ensures changed { ChangedIsNow }
    ensures forward { ForwardIsSame }
    ensures unseen { UnstampedIsUnseen }
{}

/// The laws of the list of versions that a transaction has put or ended, in the order of writing:
/// in which order they come to the front as it draws its end. The call does nothing.
pub fn laws_of_written_versions()
    ensures nothing { NothingIsWritten }
    ensures absent { AbsentIsUnnamed }
    ensures insert { InsertIsWritten }
    ensures delete { DeleteIsWritten }
    ensures update { UpdateIsWritten }
    ensures others { OthersKeepWritten }
{}

/// The laws of the words that each transaction still has to replace. Its list names, in the order
/// of writing, the Begins and Ends that it wrote; an End that another took over stays on the list
/// and is passed over. Such are the lists when a core opens, and after each call; an ended
/// transaction is done where at most one place still names it, and no word names it then. The call
/// does nothing.
pub fn laws_of_words()
    ensures opening { OpeningHasLists }
    ensures begin { BeginKeepsLists }
    ensures insert { InsertKeepsLists }
    ensures delete { DeleteKeepsLists }
    ensures update { UpdateKeepsLists }
    ensures answer { AnswerKeepsLists }
    ensures precommit { PrecommitKeepsLists }
    ensures check { CheckKeepsLists }
    ensures commit { CommitKeepsLists }
    ensures abort { AbortKeepsLists }
    ensures passing { PassingKeepsLists }
    ensures done { DoneIsSeen }
    ensures finish { FinishKeepsLists }
    ensures last { LastIsUnnamed }
    ensures last_kept { LastKeepsLists }
    ensures none { NoneIsUnnamed }
    ensures leaving { LeavingKeepsLists }
    ensures alike { FinishedIsAlike }
    ensures stands { FinishedStands }
    ensures trim { TrimKeepsLists }
    ensures close { CloseKeepsLists }
    ensures removal { RemovalKeepsLists }
    ensures room { RoomKeepsLists }
    ensures written { ListsAreWritten }
    ensures one_left { OnePutIsLeft }
    ensures one_stands { OnePutStands }
{}
