// The rule of the jobs in a queue, and what a call does to the hand that makes it.
use crate::job::Job;
use crossbeam_channel::protocol::{Join, Lesson, Outcome, Protocol, Split};
use std::collections::LinkedList;

/// What a hand has pushed and taken. No value of it is made.
pub struct Hand {
    pub pushes: bool,
    pub put: LinkedList<Job>,
    pub parts: u64,
    pub taken: LinkedList<(u64, Job)>,
}

/// First in, first out.
pub struct Fifo;

impl Protocol<Job, Hand> for Fifo {
    ghost use Rattle.mvo_front.specs.Queue.{InOrder, first_hand};

    ghost holds = { InOrder };

    ghost first = { first_hand };
}

/// A job was pushed.
pub struct Pushes;

impl Outcome<Job, Hand> for Pushes {
    ghost use Rattle.mvo_front.specs.Queue.{Pushed};

    ghost then = { Pushed };
}

impl Lesson<Job, Hand> for Pushes {
    ghost fact = { λ v items. Unit {0} };
}

/// A job was taken.
pub struct Takes;

impl Outcome<Job, Hand> for Takes {
    ghost use Rattle.mvo_front.specs.Queue.{Taken};

    ghost then = { Taken };
}

impl Lesson<Job, Hand> for Takes {
    ghost use Rattle.mvo_front.specs.Queue.{Settled};

    ghost fact = { Settled };
}

/// A ticket was cut off for a worker.
pub struct Cut;

impl Split<Hand> for Cut {
    ghost use Rattle.mvo_front.specs.Queue.{left_of, worker};

    ghost left = { left_of };

    ghost right = { λ v. worker };
}

/// A worker's ticket came back.
pub struct Back;

impl Join<Hand> for Back {
    ghost use Rattle.mvo_front.specs.Queue.{joined_hands, gone};

    ghost both = { joined_hands };

    ghost spent = { gone };
}

/// What is known with every ticket back.
pub struct Total;

impl Lesson<Job, Hand> for Total {
    ghost use Rattle.mvo_front.specs.Queue.{Settled};

    ghost fact = { Settled };
}
