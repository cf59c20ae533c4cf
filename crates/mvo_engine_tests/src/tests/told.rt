//! What a step of a test is answered.

use super::rows::byte_in;
use mvo_disk::Disk;
use mvo_engine::{Gate, Run, Session, Transacted};
use mvo_store::{Done, Generation, Progress, Reclaimed, Spent};
use mvo_types::{Answer, Refusal, Stamp, TxId};

/// What a step is answered.
#[derive(Clone, Copy, Debug, PartialEq, Eq)]
pub enum Told {
    /// It is done, and nothing more is told.
    Done,
    /// A timestamp, the generation of a manifest, or how many.
    Number(u64),
    /// Whether it is so.
    Is(bool),
    /// The byte of the row's data, or that there is no row.
    Byte(Option<u8>),
    /// What a transaction gave that was done as a whole, and its end.
    Whole(Option<u8>, u64),
    /// What one gave that was given up.
    GivenUp(Option<u8>),
    Inserted,
    Exists,
    Updated,
    Deleted,
    Absent,
    /// There is more to be written, or to be emptied.
    More,
    /// All is written.
    Ready,
    /// The gate of the slot is closed.
    Shut,
    Written,
    /// It is refused, by the number of the refusal.
    Refused(u32),
}

pub const NO_TRANSACTION: Told = Told::Refused(10);

pub const WRITE_CONFLICT: Told = Told::Refused(20);

pub const VALIDATION_FAILED: Told = Told::Refused(21);

pub const TABLE_FULL: Told = Told::Refused(30);

pub const TOO_MANY_READS: Told = Told::Refused(32);

pub const BAD_TABLE: Told = Told::Refused(34);

pub const DISK_FAULT: Told = Told::Refused(50);

pub const DOWN: Told = Told::Refused(51);

pub const BUSY: Told = Told::Refused(52);

pub const NOTHING_TO_DO: Told = Told::Refused(56);

pub const READ_ONLY: Told = Told::Refused(60);

/// What is done, or refused.
pub fn done(answer: Result<(), Refusal>) -> Told {
    match answer {
        Ok(()) => Told::Done,
        Err(refusal) => Told::Refused(refusal.code()),
    }
}

/// Whether a slice was the last.
pub fn sliced(answer: Result<Progress, Refusal>) -> Told {
    match answer {
        Ok(Progress::More) => Told::More,
        Ok(Progress::Ready) => Told::Ready,
        Err(refusal) => Told::Refused(refusal.code()),
    }
}

/// Whether a session is made. It is let go.
pub fn made<L: Run, D: Disk, G: Gate + Drop>(
    answer: Result<Session<'_, L, D, G>, Refusal>,
) -> Told {
    match answer {
        Ok(_session) => Told::Done,
        Err(refusal) => Told::Refused(refusal.code()),
    }
}

/// Where a transaction begins.
pub fn begun(answer: Result<TxId, Refusal>) -> Told {
    match answer {
        Ok(id) => Told::Number(id.0),
        Err(refusal) => Told::Refused(refusal.code()),
    }
}

/// Where a transaction ends, or a mark.
pub fn stamped(answer: Result<Stamp, Refusal>) -> Told {
    match answer {
        Ok(stamp) => Told::Number(stamp.0),
        Err(refusal) => Told::Refused(refusal.code()),
    }
}

/// The generation that is installed.
pub fn installed(answer: Result<Generation, Refusal>) -> Told {
    match answer {
        Ok(generation) => Told::Number(generation.0),
        Err(refusal) => Told::Refused(refusal.code()),
    }
}

/// The generation that is installed, whatever the job held.
pub fn opened(answer: Result<(Generation, Spent), Refusal>) -> Told {
    match answer {
        Ok((generation, _)) => Told::Number(generation.0),
        Err(refusal) => Told::Refused(refusal.code()),
    }
}

/// Whether it is so.
pub fn said(answer: Result<bool, Refusal>) -> Told {
    match answer {
        Ok(is_so) => Told::Is(is_so),
        Err(refusal) => Told::Refused(refusal.code()),
    }
}

/// The byte that was found.
pub fn seen(answer: Result<Option<u8>, Refusal>) -> Told {
    match answer {
        Ok(byte) => Told::Byte(byte),
        Err(refusal) => Told::Refused(refusal.code()),
    }
}

/// What a whole transaction gave.
pub fn whole(answer: Result<Transacted<Option<u8>>, Refusal>) -> Told {
    match answer {
        Ok(done) => match done.end {
            Some(end) => Told::Whole(done.told, end.0),
            None => Told::GivenUp(done.told),
        },
        Err(refusal) => Told::Refused(refusal.code()),
    }
}

/// What an operation is answered. Of a scan, how many rows.
pub fn answered(answer: &Result<Answer, Refusal>) -> Told {
    match answer {
        Ok(answer) => told_by(answer),
        Err(refusal) => Told::Refused(refusal.code()),
    }
}

fn told_by(answer: &Answer) -> Told {
    match answer {
        Answer::Found(_) => Told::Byte(byte_in(answer)),
        Answer::Rows(rows) => Told::Number(rows.len() as u64),
        Answer::Inserted => Told::Inserted,
        Answer::Exists => Told::Exists,
        Answer::Updated => Told::Updated,
        Answer::Deleted => Told::Deleted,
        Answer::Absent => Told::Absent,
    }
}

/// What a call of a store is answered.
pub fn called(answer: Result<Done, Refusal>) -> Told {
    match answer {
        Ok(done) => told_of(done),
        Err(refusal) => Told::Refused(refusal.code()),
    }
}

fn told_of(done: Done) -> Told {
    match done {
        Done::Written => Told::Written,
        Done::Durable(durable) => Told::Number(durable.mark().0),
        Done::Ready => Told::Ready,
        Done::Progress(progress) => written(progress),
        Done::Shut => Told::Shut,
        Done::Installed(generation) => Told::Number(generation.0),
        Done::Reclaimed(reclaimed) => emptied(reclaimed),
    }
}

fn written(progress: Progress) -> Told {
    match progress {
        Progress::More => Told::More,
        Progress::Ready => Told::Ready,
    }
}

fn emptied(reclaimed: Reclaimed) -> Told {
    match reclaimed {
        Reclaimed::More => Told::More,
        Reclaimed::Done => Told::Done,
    }
}
