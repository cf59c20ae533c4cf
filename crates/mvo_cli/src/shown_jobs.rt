use mvo_engine::{Gate, Place};
use std::sync::atomic::{AtomicU64, Ordering};
use std::sync::{Mutex, Wait};
use std::time::{Clock, Instant};

/// Shows on standard error, where that is a terminal, how many jobs are done of all, and how many
/// transactions have committed in a second.
pub struct ShownJobs<'a, R: Eprint + Clock + Wait> {
    rt: &'a R,
    is_terminal: bool,
    all: usize,
    /// When the jobs began, if there is a clock.
    start: Option<Instant>,
    commits: &'a AtomicU64,
    done: Mutex<usize>,
}

impl<'a, R: Eprint + Clock + Wait> Drop for ShownJobs<'a, R> {
    fn drop(self) {
        let ShownJobs {
            rt: _,
            is_terminal: _,
            all: _,
            start: _,
            commits: _,
            done: _,
        } = self;
    }
}

impl<'a, R: Eprint + Clock + Wait> ShownJobs<'a, R> {
    /// Of so many jobs none is done yet. The commits are counted elsewhere.
    pub fn new(
        rt: &'a R,
        is_terminal: bool,
        all: usize,
        commits: &'a AtomicU64,
    ) -> ShownJobs<'a, R> {
        ShownJobs {
            rt,
            is_terminal,
            all,
            start: Instant::now(rt).ok(),
            commits,
            done: Mutex::new(0),
        }
    }

    /// One more job is done.
    fn note_done(&self) {
        let mut done = self.done.lock(self.rt);
        *done = done.saturating_add(1);
        self.show(*done);
    }

    fn show(&self, done: usize) {
        if !self.is_terminal {
            return;
        }
        let all = self.all;
        let rate = self.commits_a_second();
        let end = if done >= all { "\n" } else { "" };
        let _ = eprint!(self.rt; "\r{done} of {all} jobs done, {rate} commits a second{end}");
    }

    /// How many transactions have committed in a second, on the average since the beginning.
    fn commits_a_second(&self) -> u64 {
        let commits = self.commits.load(Ordering::SeqCst);
        let millis = match self.start {
            Some(start) => match start.elapsed(self.rt) {
                Ok(time) => u64::try_from(time.as_millis()).unwrap_or(u64::MAX),
                Err(_) => 0,
            },
            None => 0,
        };
        commits
            .saturating_mul(1_000)
            .checked_div(millis)
            .unwrap_or(0)
    }
}

impl<R: Eprint + Clock + Wait> Gate for ShownJobs<'_, R> {
    fn pass(&self, place: Place) {
        if let Place::JobEnd(_) = place {
            self.note_done();
        }
    }
}
