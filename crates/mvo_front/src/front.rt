//! Pushing and taking jobs.
ghost use Rattle.std.specs.Prelude.{◌≡◌};
ghost use Rattle.crossbeam_channel.specs.Claims.{IsKeyed};
ghost use Rattle.crossbeam_channel.specs.Ends.{receives_on, sends_on};

use crate::job::Job;
use crate::job_queue::JobQueue;
use crate::new_queue::NewQueue;
use crate::rule::{Back, Cut, Fifo, Hand, Pushes, Takes, Total};
use crate::ticket::Ticket;
use crossbeam_channel::{RuledReceiver, RuledSender, SendError, TrySendError};
use std::marker::PhantomData;
use std::sync::Wait;
use std::sync::atomic::{AtomicBool, Ordering};
use std::thread;

/// A queue of jobs, from one hand that pushes to many that take, first in first out.
pub struct Front<L: JobQueue> {
    sender: RuledSender<Job, Hand, Fifo>,
    receiver: RuledReceiver<Job, Hand, Fifo>,
    closed: AtomicBool,
    queue: PhantomData<L>,
    ghost one: { receives_on receiver ≡ sends_on sender },
    ghost keyed: { IsKeyed (sends_on sender) },
    ghost table: { (sends_on sender).stamps.shared.table_id ≡ L.table },
    ghost keys: { (sends_on sender).stamps.shared.key ≡ L.keys },
}

impl<L: JobQueue> Drop for Front<L> {
    fn drop(self) {
        let Front {
            sender: _,
            receiver: _,
            closed: _,
            queue: _,
        } = self;
    }
}

impl<L: JobQueue> Front<L> {
    ghost use Rattle.std.specs.Prelude.{◌≡◌, ◌<◌, List, true, MatchOption, MatchResult};
    ghost use Rattle.mvo_front.specs.Job.{JobData};
    ghost use Rattle.mvo_front.specs.Named.{IsQueueNamedBy};
    ghost use Rattle.mvo_front.specs.Queue.{first_hand, left_of, joined_hands, worker};
    ghost use Rattle.mvo_front.specs.Queue.{AreAllTaken, IsServed, Pushed, Taken};

    /// A queue, and the ticket that pushes and that others are cut from.
    pub fn new(opened: NewQueue) -> (Front<L>, Ticket<L>)
        requires { IsQueueNamedBy L.table L.keys opened }
        ensures { result.1 ≡ first_hand }
    {
        let NewQueue {
            sender,
            receiver,
            pass,
        } = opened;
        let front = Front {
            sender,
            receiver,
            closed: AtomicBool::new(false),
            queue: PhantomData,
        };
        let ticket = Ticket {
            pass,
            queue: PhantomData,
        };
        (front, ticket)
    }

    /// Pushes a job behind those that this hand has pushed, and waits for room. Where the queue is
    /// closed, the job comes back, and nothing has changed.
    pub fn push<R: Wait>(&self, rt: &R, ticket: &mut Ticket<L>, job: Job) -> Result<(), Job>
        requires { ticket.old.pushes ≡ true }
        ensures { MatchResult result (λ _. Pushed ticket.old job ticket.new)
            (λ back. (back ≡ job) × (ticket.new ≡ ticket.old)) }
    {
        if self.closed.load(Ordering::SeqCst) {
            return Err(job);
        }
        match self.sender.send_as::<Pushes, R>(rt, &mut ticket.pass, job) {
            Ok(()) => Ok(()),
            Err(SendError::Disconnected(job) | SendError::OutOfMemory(job)) => Err(job),
        }
    }

    /// The same where there is room at once. A full queue gives the job back too.
    pub fn try_push<R: Wait>(&self, rt: &R, ticket: &mut Ticket<L>, job: Job) -> Result<(), Job>
        requires { ticket.old.pushes ≡ true }
        ensures { MatchResult result (λ _. Pushed ticket.old job ticket.new)
            (λ back. (back ≡ job) × (ticket.new ≡ ticket.old)) }
    {
        let is_open = !self.closed.load(Ordering::SeqCst);
        if is_open {
            self.try_send(rt, ticket, job)
        } else {
            Err(job)
        }
    }

    fn try_send<R: Wait>(&self, rt: &R, ticket: &mut Ticket<L>, job: Job) -> Result<(), Job>
        requires { ticket.old.pushes ≡ true }
        ensures { MatchResult result (λ _. Pushed ticket.old job ticket.new)
            (λ back. (back ≡ job) × (ticket.new ≡ ticket.old)) }
    {
        match self
            .sender
            .try_send_as::<Pushes, R>(rt, &mut ticket.pass, job)
        {
            Ok(()) => Ok(()),
            Err(
                TrySendError::Full(job)
                | TrySendError::Disconnected(job)
                | TrySendError::OutOfMemory(job),
            ) => Err(job),
        }
    }

    /// Takes the job that has waited longest, and waits for one. None where the queue is closed and
    /// no job was seen in it.
    pub fn take<R: Wait>(&self, rt: &R, ticket: &mut Ticket<L>) -> Option<Job>
        requires { 0 < ticket.old.parts }
        ensures { MatchOption result (ticket.new ≡ ticket.old)
            (λ x. Taken ticket.old x ticket.new) }
    {
        for _ in rt.forever() {
            // Asked first: what was pushed before the queue was closed is seen below.
            let is_last = self.closed.load(Ordering::SeqCst);
            match self.try_take(rt, ticket) {
                Some(job) => return Some(job),
                None if is_last => return None,
                None => thread::yield_now(),
            }
        }
        unreachable!()
    }

    /// Takes the job that has waited longest, if one is seen. With every ticket back, none is seen
    /// only where each job that was pushed has been taken, once.
    pub fn try_take<R: Wait>(&self, rt: &R, ticket: &mut Ticket<L>) -> Option<Job>
        requires { 0 < ticket.old.parts }
        ensures taken { MatchOption result (ticket.new ≡ ticket.old)
            (λ x. Taken ticket.old x ticket.new) }
        ensures all { MatchOption result (AreAllTaken ticket.old) (λ _. Unit {0}) }
    {
        match self.receiver.try_recv_as::<Takes, R>(rt, &mut ticket.pass) {
            Ok(job) => Some(job),
            Err(_) => None,
        }
    }

    /// Takes no more jobs in. Those that wait may still be taken.
    pub fn close(&self) {
        self.closed.store(true, Ordering::SeqCst);
    }

    /// A ticket for one more worker, which takes alone.
    pub fn hire(&self, ticket: &mut Ticket<L>) -> Ticket<L>
        requires { 1 < ticket.old.parts }
        ensures left { ticket.new ≡ left_of ticket.old }
        ensures cut { result ≡ worker }
    {
        let pass = self.sender.another::<Cut>(&mut ticket.pass);
        Ticket {
            pass,
            queue: PhantomData,
        }
    }

    /// Takes back the ticket of a worker, with what that one has taken.
    pub fn dismiss(&self, ticket: &mut Ticket<L>, other: Ticket<L>)
        ensures { ticket.new ≡ joined_hands ticket.old other }
    {
        let Ticket { pass, queue: _ } = other;
        self.sender.absorb::<Back>(&mut ticket.pass, pass);
    }

    /// With every ticket back: each of the first jobs that were pushed was taken once, and the
    /// others are left, in order.
    pub fn settle(&self, ticket: &mut Ticket<L>)
        requires { (ticket.old.pushes ≡ true) × (ticket.old.parts ≡ 1024) }
        ensures same { ticket.new ≡ ticket.old }
        ensures served { (left : List JobData) × IsServed ticket.old.put ticket.old.taken left }
    {
        self.sender.learn_as::<Total>(&mut ticket.pass);
    }
}
