use crate::clients::answering::answer_all;
use crate::clients::client_pipes::ClientPipes;
use crate::fault::Fault;
use crate::jobs::Lines;
use mvo_disk::Disk;
use mvo_engine::{Engine, Gate, Run};
use mvo_front::{Job, JobWork, Outcome};
use std::alloc::{AllocError, Global};
use std::fs::File;
use std::io::{self, Write};
use std::sync::Wait;
use std::sync::atomic::{AtomicU64, Ordering};
use std::thread;

/// Serves the clients of a number, one behind another, in a session.
#[derive(Drop)]
pub struct ClientWork<'e, L: Run, D: Disk, G: Gate + Drop, P: ClientPipes> {
    alloc: Global,
    engine: &'e Engine<L, D, G>,
    pipes: &'e P,
    /// How many clients there may be at once.
    clients: usize,
    /// Whether one of them said `stop`.
    over: AtomicU64,
    /// How many threads serve.
    serving: AtomicU64,
}

impl<'e, L: Run, D: Disk, G: Gate + Drop, P: ClientPipes> ClientWork<'e, L, D, G, P> {
    /// What serves clients by an engine and over these pipes.
    pub fn new(
        alloc: Global,
        engine: &'e Engine<L, D, G>,
        pipes: &'e P,
        clients: usize,
    ) -> ClientWork<'e, L, D, G, P> {
        ClientWork {
            alloc,
            engine,
            pipes,
            clients,
            over: AtomicU64::new(0),
            serving: AtomicU64::new(0),
        }
    }

    /// The engine.
    pub fn engine(&self) -> &Engine<L, D, G> {
        self.engine
    }

    /// Whether no further line is read.
    pub fn is_over(&self) -> bool {
        self.over.load(Ordering::SeqCst) != 0
    }

    /// Ends the program for all clients, and waits until no other thread serves. So long the pipes
    /// of the others are held open: who waits for a client, or for a line, doesn't then. Where they
    /// can't be opened, nothing is ended; where another one has ended it, that one waits.
    pub fn stop<R: Wait>(&self, rt: &R, number: usize) -> Result<(), Fault> {
        let mut ends = self.ends_of_others(number)?;
        if self.over.swap(1, Ordering::SeqCst) != 0 {
            return Ok(());
        }
        for (lines, _) in ends.iter_mut() {
            let _ = lines.write_all(b"\n");
        }
        for _ in rt.forever() {
            if self.serving.load(Ordering::SeqCst) <= 1 {
                break;
            }
            thread::yield_now();
        }
        Ok(())
    }

    /// Both ends of the pipes of all other clients.
    fn ends_of_others(&self, number: usize) -> Result<Vec<(File, File)>, Fault> {
        let mut ends = Vec::new(self.alloc);
        for other in 0..self.clients {
            let other = other.saturating_add(1);
            if other != number {
                ends.push(self.pipes.open_ends(other)?)
                    .map_err(AllocError::from)?;
            }
        }
        Ok(ends)
    }

    /// Serves the clients of a number until the program ends, or a pipe can't be opened.
    fn serve<R: Wait>(&self, rt: &R, number: usize) -> Result<(), Fault> {
        let session = match self.engine.session(rt) {
            Ok(session) => session,
            Err(refusal) => return Err(Fault::Refused(refusal)),
        };
        let mut lines = Lines::new(self.alloc, session);
        for _ in rt.forever() {
            if self.is_over() {
                return Ok(());
            }
            self.serve_next(rt, number, &mut lines)?;
        }
        Ok(())
    }

    /// Serves the next client of a number. Who goes leaves its transaction.
    fn serve_next<R: Wait>(
        &self,
        rt: &R,
        number: usize,
        lines: &mut Lines<'_, L, D, G>,
    ) -> Result<(), Fault> {
        let from = self.pipes.open_lines(number)?;
        if self.is_over() {
            return Ok(());
        }
        let to = self.pipes.open_replies(number)?;
        // Of a client whose replies aren't taken nothing more is wanted.
        let _ = answer_all(rt, self.alloc, self, number, lines, from, to);
        lines.end(rt);
        Ok(())
    }
}

impl<'e, L: Run, D: Disk, G: Gate + Drop, P: ClientPipes> JobWork for ClientWork<'e, L, D, G, P> {
    ghost comes_to = { λ job outcome. Unit {0} };

    fn run<R: Wait>(&self, rt: &R, job: Job) -> Outcome {
        let Job { number, script: _ } = job;
        self.serving.fetch_add(1, Ordering::SeqCst);
        let served = self.serve(rt, number as usize);
        self.serving.fetch_sub(1, Ordering::SeqCst);
        let replies = match served {
            Ok(()) => Ok(String::new(self.alloc)),
            Err(fault) => format!(in self.alloc; "{fault}"),
        };
        Outcome { number, replies }
    }
}
