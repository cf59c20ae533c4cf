//! Stories in which the order of writing isn't enough.

use crate::engine::Engine;
use crate::equal::same;
use crate::keys::key_of;
use crate::plain::shown_of_others;
use crate::step::Step::{self, Begin, Delete, Finish, Insert, Precommit, Settle, Withdraw};
use crate::story::Story;
use mvo_types::{Stamp, TxId};
use mvo_visible::Shown;
use std::alloc::Global;
use std::process::Abort;
use std::test::Fail;

/// What one that begins now is shown of the key, which is what a plain walk says.
fn shown_now(rt: &impl Abort, engine: &Engine) -> Shown {
    let id = engine.table.clock().0.saturating_add(1);
    let shown = engine.shown_to(TxId(id), key_of(1));
    same(rt, &shown, &shown_of_others(engine, Stamp(id), key_of(1)));
    shown
}

/// After these steps too, so much is shown, and nothing strange was met.
fn shows(rt: &impl Abort, story: &Story, wanted: Shown) {
    same(rt, &shown_now(rt, &story.engine), &wanted);
    same(rt, &story.engine.counts.strange, &0);
}

/// X, Y and T.
const ROLLED_BACK: [Step; 11] = [
    Begin,
    Begin,
    Insert(0, 1),
    Insert(1, 2),
    Precommit(0),
    Begin,
    Delete(2),
    Precommit(1),
    Precommit(2),
    Withdraw(0),
    Settle(1),
];

/// X and Y insert a key, and neither sees the other. X draws its end, T deletes the row that X put,
/// Y draws its end, and T does. Then X rolls back and Y commits: T's removal is the latest change,
/// though the row that it ended was put before Y's.
fn removes_what_was_rolled_back(rt: &impl Abort, story: &mut Story) -> Result<(), Fail> {
    story.follow(&ROLLED_BACK)?;
    shows(rt, story, story.removed_by(2)?);
    story.withdraw(2)?;
    shows(rt, story, story.put_by(1)?);
    Ok(())
}

#[test]
fn a_removal_of_what_was_rolled_back_stands_in_front(rt: HostRuntime) -> Result<(), Fail> {
    let mut story = Story::new(rt.alloc())?;
    removes_what_was_rolled_back(&rt, &mut story)
}

/// X and T, before X is withdrawn.
const NOBODY_PUT: [Step; 6] = [
    Begin,
    Insert(0, 1),
    Precommit(0),
    Begin,
    Delete(1),
    Withdraw(0),
];

/// X takes its word back.
const TAKES_BACK: [Step; 1] = [Finish(0)];

/// Y commits before T draws its end.
const COMMITS: [Step; 5] = [Begin, Insert(2, 2), Precommit(2), Settle(2), Precommit(1)];

/// T deletes the row that X put, and X rolls back. Y inserts the key and commits, and only then T
/// draws its end: its removal is the latest change, though it stands at a row that nobody has put
/// any more. X may have taken its word back by then.
fn removes_what_nobody_put(
    rt: &impl Abort,
    story: &mut Story,
    between: &[Step],
) -> Result<(), Fail> {
    for steps in [&NOBODY_PUT, between, &COMMITS] {
        story.follow(steps)?;
    }
    shows(rt, story, story.removed_by(1)?);
    Ok(())
}

fn stands_in_front(rt: &impl Abort, alloc: Global, between: &[Step]) -> Result<(), Fail> {
    let mut story = Story::new(alloc)?;
    removes_what_nobody_put(rt, &mut story, between)
}

#[test]
fn a_removal_of_what_nobody_has_put_stands_in_front(rt: HostRuntime) -> Result<(), Fail> {
    stands_in_front(&rt, rt.alloc(), &[])?;
    stands_in_front(&rt, rt.alloc(), &TAKES_BACK)
}
