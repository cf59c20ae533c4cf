use crate::job::Job;
use crate::job_queue::JobQueue;
use crate::rule::Hand;
use crossbeam_channel::Pass;
use std::marker::{Model, PhantomData};

/// The leave of one hand to use a queue: to push and to take, or to take alone. Contracts see what
/// the hand has pushed and taken.
#[derive(Drop)]
pub struct Ticket<L: JobQueue> {
    pub(crate) pass: Pass<Job, Hand>,
    pub(crate) queue: PhantomData<L>,
}

impl<L: JobQueue> Model for Ticket<L> {
    ghost use Rattle.mvo_front.specs.declared.rule.Hand.{Hand};
    ghost use Rattle.mvo_front.specs.Tickets.{IsPassOf};

    ghost Value = { Hand };

    ghost view = { λ t. t.pass.me.0.client };

    ghost invariant = { λ t. IsPassOf L.table L.keys t.pass };
}
