//! Who leads the next flush, and where the others sleep meanwhile.
use crate::bell::Bell;
use std::sync::atomic::{AtomicU64, Ordering};
use std::sync::{Mutex, MutexGuard, Wait};
use std::thread;
use std::time::Duration;

/// How often who leads yields at most, to let others come back before the group is closed.
const YIELDS: u32 = 4;

/// How many turns of others who is to make a step of a job lets by at most, where some wait for the
/// disk. A step takes a few times as long as a flush, so both come to about half of the time.
const LET_BY: u64 = 5;

/// How often the bell may ring meanwhile: behind each guard, and behind each turn.
const RINGS: u64 = 4 * LET_BY;

/// How many milliseconds who has had the turn, or asks for the store by name, lets others by at
/// most: as long as a thread that was woken needs to go on, with room.
const A_MOMENT: u64 = 1;

/// The turn: who has it leads the next flush, or makes a step of a job, and has the store to
/// itself but for who asks for its guard by name. It is a lock of its own, taken before those of
/// the core and of the store, never by a thread that has one of these.
///
/// Who finds it taken sleeps on the bell, which is rung behind each turn, whatever came of it.
#[derive(Drop)]
pub struct Turns {
    /// How many had asked when the last group was closed.
    in_group: Mutex<u64>,
    /// How many have asked since.
    asked: AtomicU64,
    /// How many wait now for their commits to be durable, and flush themselves where they may.
    waiting: AtomicU64,
    /// How many turns are taken now: one, or none.
    taken: AtomicU64,
    /// How many turns have ended.
    ended: AtomicU64,
    /// 1 where the last step of a flush was refused, and else 0.
    refused: AtomicU64,
    bell: Bell,
}

impl Turns {
    pub fn new() -> Turns {
        Turns {
            in_group: Mutex::new(0),
            asked: AtomicU64::new(0),
            waiting: AtomicU64::new(0),
            taken: AtomicU64::new(0),
            ended: AtomicU64::new(0),
            refused: AtomicU64::new(0),
            bell: Bell::new(),
        }
    }

    /// One more waits, and asks for the next group.
    pub fn ask(&self) {
        self.asked.fetch_add(1, Ordering::SeqCst);
        self.waiting.fetch_add(1, Ordering::SeqCst);
    }

    /// One that waited goes on.
    pub fn leave(&self) {
        self.waiting.fetch_sub(1, Ordering::SeqCst);
    }

    /// The turn, if nobody has it.
    pub fn try_take(&self) -> Option<Turn<'_>> {
        match self.in_group.try_lock() {
            Some(held) => Some(Turn::new(self, held)),
            None => None,
        }
    }

    /// The turn, as a step of a job takes it. Those who wait for their commits are let by first.
    pub fn take<R: Wait>(&self, rt: &R) -> Turn<'_> {
        if self.waiting.load(Ordering::SeqCst) != 0 {
            self.let_some_by(rt);
        }
        Turn::new(self, self.in_group.lock(rt))
    }

    // Lets some turns of others end, or as many as come before nobody rings for a moment: the step
    // before has rung, and who waits needs a moment to be awake.
    fn let_some_by<R: Wait>(&self, rt: &R) {
        let before = self.ended.load(Ordering::SeqCst);
        for _ in 0..RINGS {
            let heard = self.bell.heard();
            let ended = self.ended.load(Ordering::SeqCst).wrapping_sub(before);
            if ended >= LET_BY {
                return;
            }
            self.bell
                .sleep_up_to(rt, heard, Duration::from_millis(A_MOMENT));
            if self.bell.heard() == heard {
                return;
            }
        }
    }

    /// Lets who has the turn come to the store, for a moment. The turn isn't taken, so this may be
    /// called with the lock of the core held, for which who has the turn may wait.
    pub fn stand_back<R: Wait>(&self, rt: &R) {
        let heard = self.bell.heard();
        if self.taken.load(Ordering::SeqCst) != 0 {
            self.bell
                .sleep_up_to(rt, heard, Duration::from_millis(A_MOMENT));
        }
    }

    /// A step of a flush was refused, or it wasn't. It is noted with the store's lock held.
    pub fn note(&self, was_refused: bool) {
        self.refused.store(u64::from(was_refused), Ordering::SeqCst);
    }

    /// Whether the last step of a flush was refused.
    pub fn was_refused(&self) -> bool {
        self.refused.load(Ordering::SeqCst) != 0
    }

    /// What a sleep compares (`Bell::heard`).
    pub fn heard(&self) -> u32 {
        self.bell.heard()
    }

    /// Sleeps until a turn ends, if none has since that was heard.
    pub fn sleep<R: Wait>(&self, rt: &R, heard: u32) {
        self.bell.sleep(rt, heard);
    }

    /// The same, for a moment at most.
    pub fn doze<R: Wait>(&self, rt: &R, heard: u32) {
        self.bell
            .sleep_up_to(rt, heard, Duration::from_millis(A_MOMENT));
    }

    /// Wakes all who sleep.
    pub fn ring(&self) {
        self.bell.ring();
    }
}

/// The turn, taken. Given back, it rings the bell.
pub struct Turn<'e> {
    turns: &'e Turns,
    held: MutexGuard<'e, u64>,
}

impl<'e> Drop for Turn<'e> {
    // The lock first and then the bell, so that who is woken finds the turn free.
    fn drop(self) {
        let Turn { turns, held } = self;
        turns.taken.fetch_sub(1, Ordering::SeqCst);
        turns.ended.fetch_add(1, Ordering::SeqCst);
        drop(held);
        turns.ring();
    }
}

impl<'e> Turn<'e> {
    fn new(turns: &'e Turns, held: MutexGuard<'e, u64>) -> Turn<'e> {
        turns.taken.fetch_add(1, Ordering::SeqCst);
        Turn { turns, held }
    }

    /// Lets others ask too, a few times, while fewer have than in the last group. Those were woken
    /// when that was durable, and commit again.
    pub fn let_others_ask(&self) {
        for _ in 0..YIELDS {
            if self.turns.asked.load(Ordering::SeqCst) >= *self.held {
                return;
            }
            thread::yield_now();
        }
    }

    /// A group was closed, for all who have asked.
    pub fn has_closed(&mut self) {
        *self.held = self.turns.asked.swap(0, Ordering::SeqCst);
    }
}
