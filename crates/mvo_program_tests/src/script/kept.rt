//! A script whose store is kept: what is due is done, a chore behind each line, and what its
//! transactions are answered stays the same.
use crate::equal::same;
use crate::script::fresh::fresh;
use mvo_disk::Disk;
use mvo_keep::{Chore, Keeper, Policy};
use mvo_script::{Driver, run_kept_over, run_over};
use mvo_store::{Due, InstallStep, StoreCall};
use mvo_types::{Refusal, Stamp};
use std::process::Abort;
use std::test::Fail;

/// With a segment of some 40 bytes it is full, and four dead records are many.
fn policy() -> Policy {
    Policy {
        many_pairs: 48,
        full_segment: 40,
        most_live: 4_194_304,
        many_dead: 4,
        collected: 200,
        in_a_row: 16,
    }
}

const DATA: Option<Chore> = Some(Chore::Step(StoreCall::Step(Due::Data)));

const DELTA: Option<Chore> = Some(Chore::Step(StoreCall::Step(Due::Delta)));

const CLOSE: Option<Chore> = Some(Chore::Step(StoreCall::Step(Due::Install(InstallStep::Close))));

const BODY: Option<Chore> = Some(Chore::Step(StoreCall::Step(Due::Install(InstallStep::Body))));

const OPEN: Option<Chore> = Some(Chore::Step(StoreCall::Step(Due::Install(InstallStep::Open))));

const RECLAIM: Option<Chore> = Some(Chore::Reclaim);

const COLLECT: Option<Chore> = Some(Chore::Collect(200));

/// In a new store there is nothing to do, once it has looked.
const NEW: [Option<Chore>; 4] = [COLLECT, RECLAIM, None, None];

/// A commit isn't in a group at the first look, and still isn't at the second. Then its segment is
/// full: a fresh one is installed, and the sealed one goes into a pair. Its file is emptied. Behind
/// the first step of these the commit goes from memory, and there is no garbage.
const PUT_AWAY: [Option<Chore>; 19] = [
    None,
    Some(Chore::Flush),
    Some(Chore::Rotate),
    Some(Chore::Trim(Stamp(2))),
    COLLECT,
    CLOSE,
    BODY,
    OPEN,
    RECLAIM,
    Some(Chore::Checkpoint),
    DATA,
    DELTA,
    CLOSE,
    BODY,
    OPEN,
    RECLAIM,
    RECLAIM,
    None,
    None,
];

/// The turns come to these.
fn keep_so<D: Disk>(
    rt: &impl Abort,
    driver: &mut Driver<D>,
    keeper: &mut Keeper,
    turns: &[Option<Chore>],
) -> Result<(), Refusal> {
    for turn in turns {
        let came = driver.keep(&policy(), keeper)?;
        same(rt, &came, turn);
    }
    Ok(())
}

#[test]
fn what_is_due_is_done_as_lines_do_it(rt: HostRuntime) -> Result<(), Fail> {
    let alloc = rt.alloc();
    let mut driver = Driver::over(alloc, fresh(&rt, alloc)?);
    let mut keeper = Keeper::new();
    keep_so(&rt, &mut driver, &mut keeper, &NEW)?;
    for line in ["begin a", "insert a 0 5 1 61", "commit a"] {
        let _ = driver.answer(line.as_bytes());
    }
    keep_so(&rt, &mut driver, &mut keeper, &PUT_AWAY)?;
    same(&rt, &driver.mark(), &Stamp(2));
    Ok(())
}

/// Transactions that meet, wait, fall, read what was overwritten, and read only.
const SCRIPT: &[u8] = b"begin a\ninsert a 0 1 1 61\ninsert a 0 2 2 62\ncommit a\n\
    begin b\nread b 0 1\nbegin c\nupdate c 0 1 3 63\nprecommit c\nvalidate c\nvalidate c\n\
    begin d\nread d 0 1\nupdate b 0 1 4 64\nbegin-read e\nsettle c\nfinish c\nfinish c\n\
    commit d\ncommit b\nscan e 0 0 9\ninsert e 0 3 3 -\ncommit e\nbegin f\nscan f 0 0 9\n\
    delete f 0 2\ncommit f\nbegin g\nread g 0 2\nrollback g\nfinish g\nread g 0 2\nbegin h\n\
    scan h 0 0 9\ninsert h 0 2 9 65\ncommit h\nno line\nbegin i\nscan i 0 0 99\ncommit i\n";

#[test]
fn a_kept_run_answers_transactions_as_without(rt: HostRuntime) -> Result<(), Fail> {
    let alloc = rt.alloc();
    let mut without = Vec::new(alloc);
    run_over(alloc, fresh(&rt, alloc)?, SCRIPT, &mut without)?;
    let mut kept = Vec::new(alloc);
    run_kept_over(alloc, fresh(&rt, alloc)?, policy(), SCRIPT, &mut kept)?;
    same(&rt, &kept.as_slice(), &without.as_slice());
    Ok(())
}
