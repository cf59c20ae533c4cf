//! What a report and the session that moves amounts beside it tell one another.
use std::sync::atomic::{AtomicU64, Ordering};

/// Where the report is: elsewhere, between its begin and its commit, and in its commit.
const ELSEWHERE: u64 = 0;

const READS: u64 = 1;

const SETTLES: u64 = 2;

#[derive(Drop)]
pub struct Meanwhile {
    stage: AtomicU64,
    /// Where a thread has come to its end.
    ended: AtomicU64,
    /// How many moves were made, and how often a flush answered a higher mark than before.
    moves: AtomicU64,
    marks: AtomicU64,
    /// The longest call beside the reads of the report, and beside its commit, in nanoseconds.
    reading: AtomicU64,
    settling: AtomicU64,
}

/// How many moves were made, and marks are durable.
#[derive(Clone, Copy)]
pub struct Counts {
    pub moves: u64,
    pub marks: u64,
}

impl Meanwhile {
    pub fn new() -> Meanwhile {
        Meanwhile {
            stage: AtomicU64::new(ELSEWHERE),
            ended: AtomicU64::new(0),
            moves: AtomicU64::new(0),
            marks: AtomicU64::new(0),
            reading: AtomicU64::new(0),
            settling: AtomicU64::new(0),
        }
    }

    /// The report begins.
    pub fn read(&self) {
        self.stage.store(READS, Ordering::SeqCst);
    }

    /// It has read all, and commits.
    pub fn settle(&self) {
        self.stage.store(SETTLES, Ordering::SeqCst);
    }

    /// It is over.
    pub fn leave(&self) {
        self.stage.store(ELSEWHERE, Ordering::SeqCst);
    }

    /// A thread is at its end.
    pub fn end(&self) {
        self.ended.store(1, Ordering::SeqCst);
    }

    pub fn has_ended(&self) -> bool {
        self.ended.load(Ordering::SeqCst) != 0
    }

    /// Where the report is, for `note_call`.
    pub fn stage(&self) -> u64 {
        self.stage.load(Ordering::SeqCst)
    }

    /// A call has ended that took so long, and began while the report was at that stage. One that
    /// was beside the commit at some time counts there.
    pub fn note_call(&self, before: u64, nanos: u128) {
        match (before, self.stage()) {
            (READS | ELSEWHERE, READS) => raise(&self.reading, nanos),
            (ELSEWHERE, ELSEWHERE) => {}
            _ => raise(&self.settling, nanos),
        }
    }

    /// A move was made, behind which the mark was raised or not.
    pub fn note_move(&self, is_raised: bool) {
        if is_raised {
            self.marks.fetch_add(1, Ordering::SeqCst);
        }
        self.moves.fetch_add(1, Ordering::SeqCst);
    }

    pub fn counts(&self) -> Counts {
        Counts {
            moves: self.moves.load(Ordering::SeqCst),
            marks: self.marks.load(Ordering::SeqCst),
        }
    }

    pub fn longest_reading(&self) -> u64 {
        self.reading.load(Ordering::SeqCst)
    }

    pub fn longest_settling(&self) -> u64 {
        self.settling.load(Ordering::SeqCst)
    }
}

impl Counts {
    /// How many more there are than there were.
    pub fn since(&self, before: Counts) -> Counts {
        Counts {
            moves: self.moves.saturating_sub(before.moves),
            marks: self.marks.saturating_sub(before.marks),
        }
    }
}

/// Makes it as long as that at least. One thread alone does so.
fn raise(longest: &AtomicU64, nanos: u128) {
    let nanos = u64::try_from(nanos).unwrap_or(u64::MAX);
    if nanos > longest.load(Ordering::SeqCst) {
        longest.store(nanos, Ordering::SeqCst);
    }
}
