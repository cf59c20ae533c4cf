ghost use Rattle.mvo_visible.specs.Laws.{NewKeepsOrder, FrontKeepsOrder, AbortKeepsOrder};
ghost use Rattle.mvo_visible.specs.Laws.{LessKeepsOrder, UnheldKeepsOrder};
ghost use Rattle.mvo_visible.specs.Laws.{PrepareKeepsOrder, CommitKeepsOrder};
ghost use Rattle.mvo_visible.specs.Laws.{AlikeKeepsOrder, FewerKeepFront, CommitKeepsFront};

/// The laws of the order in which the versions of a key stand, which `shown` asks for. A version
/// whose put isn't settled may go in front at any time, and an abort takes nothing out of order.
/// When a transaction draws its end, what it wrote has to stand in front of each settled put; when
/// it commits, nothing behind what it put may have a greater stamp. The call does nothing.
pub fn laws_of_order()
    ensures new { NewKeepsOrder }
    ensures front { FrontKeepsOrder }
    ensures less { LessKeepsOrder }
    ensures unheld { UnheldKeepsOrder }
    ensures abort { AbortKeepsOrder }
    ensures prepare { PrepareKeepsOrder }
    ensures commit { CommitKeepsOrder }
    ensures alike { AlikeKeepsOrder }
    ensures fewer { FewerKeepFront }
    ensures commit_front { CommitKeepsFront }
{}
