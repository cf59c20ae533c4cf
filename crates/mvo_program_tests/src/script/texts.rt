//! The text of each refusal.
use crate::equal::same;
use mvo_types::{Cause, Refusal, Stamp, TxId};
use std::test::Fail;

const GREATEST: u64 = 1 << 62;

const REFUSALS: [(Refusal, &str); 34] = [
    (Refusal::NoSuchTransaction, "refused 10"),
    (Refusal::Ended, "refused 11"),
    (Refusal::NotActive, "refused 12"),
    (Refusal::NotPreparing, "refused 13"),
    (Refusal::NotValidated, "refused 14"),
    (Refusal::NotEnded, "refused 15"),
    (Refusal::WorkMismatch, "refused 16"),
    (
        Refusal::WriteConflict(Cause::Active(TxId(3))),
        "refused 20 active 3",
    ),
    (
        Refusal::WriteConflict(Cause::Stamped(Stamp(GREATEST))),
        "refused 20 stamped 4611686018427387904",
    ),
    (Refusal::ValidationFailed(Stamp(5)), "refused 21 5"),
    (Refusal::DependencyAborted(TxId(1)), "refused 22 1"),
    (Refusal::TableFull, "refused 30"),
    (Refusal::TooManyWrites, "refused 31"),
    (Refusal::TooManyReads, "refused 32"),
    (Refusal::DataTooLong, "refused 33"),
    (Refusal::BadTable, "refused 34"),
    (Refusal::ClockSpent, "refused 35"),
    (Refusal::RingFull, "refused 36"),
    (Refusal::SegmentFull, "refused 37"),
    (Refusal::PairsFull, "refused 38"),
    (Refusal::SegmentsFull, "refused 39"),
    (Refusal::PairTooLarge, "refused 41"),
    (Refusal::DiskFault, "refused 50"),
    (Refusal::Down, "refused 51"),
    (Refusal::Busy, "refused 52"),
    (Refusal::NotFormatted, "refused 53"),
    (Refusal::Corrupt(0), "refused 54 0"),
    (Refusal::Corrupt(1_023), "refused 54 1023"),
    (Refusal::BadVersion, "refused 55"),
    (Refusal::NothingToDo, "refused 56"),
    (Refusal::AlreadyFormatted, "refused 57"),
    (Refusal::ReadOnly, "refused 60"),
    (Refusal::OldSegment, "refused 61"),
    (Refusal::OutOfMemory, "refused 90"),
];

#[test]
fn refusals_have_their_texts(rt: HostRuntime) -> Result<(), Fail> {
    for (refusal, text) in REFUSALS {
        let line = refusal.to_string(rt.alloc())?;
        same(&rt, &line.as_str(), &text);
    }
    Ok(())
}
