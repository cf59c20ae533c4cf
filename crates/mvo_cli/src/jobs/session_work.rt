use crate::jobs::lines::Lines;
use crate::jobs::replies::replies_to;
use mvo_disk::Disk;
use mvo_engine::{Engine, Gate, Place, Run};
use mvo_front::{Job, JobWork, Outcome};
use std::alloc::{AllocError, Global};
use std::sync::Wait;
use std::sync::atomic::{AtomicU64, Ordering};

/// Runs each job in a session of its own.
#[derive(Drop)]
pub struct SessionWork<'e, L: Run, D: Disk, G: Gate + Drop, J: Gate> {
    alloc: Global,
    engine: &'e Engine<L, D, G>,
    /// Told before and behind each job.
    gate: &'e J,
    /// How many transactions of all jobs have committed.
    commits: &'e AtomicU64,
}

impl<'e, L: Run, D: Disk, G: Gate + Drop, J: Gate> SessionWork<'e, L, D, G, J> {
    /// What runs jobs over an engine. It adds to the commits as a job's are answered.
    pub fn new(
        alloc: Global,
        engine: &'e Engine<L, D, G>,
        gate: &'e J,
        commits: &'e AtomicU64,
    ) -> SessionWork<'e, L, D, G, J> {
        SessionWork {
            alloc,
            engine,
            gate,
            commits,
        }
    }

    /// The replies to a job's script.
    fn replies<R: Wait>(&self, rt: &R, script: &[u8]) -> Result<String, AllocError> {
        match self.engine.session(rt) {
            Ok(session) => {
                let mut lines = Lines::new(self.alloc, session);
                self.replies_by(rt, &mut lines, script)
            }
            // No session is left.
            Err(_) => Err(AllocError),
        }
    }

    /// The replies to a job's script by the lines of its session. What the script began and didn't
    /// end is rolled back.
    fn replies_by<R: Wait>(
        &self,
        rt: &R,
        lines: &mut Lines<'_, L, D, G>,
        script: &[u8],
    ) -> Result<String, AllocError> {
        let replies = replies_to(rt, self.alloc, lines, script);
        lines.end(rt);
        self.commits.fetch_add(lines.commits(), Ordering::SeqCst);
        replies
    }
}

impl<'e, L: Run, D: Disk, G: Gate + Drop, J: Gate> JobWork for SessionWork<'e, L, D, G, J> {
    ghost comes_to = { λ job outcome. Unit {0} };

    fn run<R: Wait>(&self, rt: &R, job: Job) -> Outcome {
        let Job { number, script } = job;
        self.gate.pass(Place::JobStart(number));
        let replies = self.replies(rt, &script);
        self.gate.pass(Place::JobEnd(number));
        Outcome { number, replies }
    }
}
