mod call_by_call;
mod jobs;
mod leading;
mod retiring;

ghost use Rattle.std.specs.Prelude.{◌≡◌};
ghost use Rattle.mvo_store.specs.Seen.{mark_of};
ghost use Rattle.mvo_engine.specs.Ending.{AreSeenUpTo, HasShutDown};

use crate::core_guard::CoreGuard;
use crate::ends::groups_up_to;
use crate::fresh::Fresh;
use crate::gate::Gate;
use crate::locked_core::LockedCore;
use crate::locked_store::LockedStore;
use crate::place::Place;
use crate::run::Run;
use crate::seen_durable::SeenDurable;
use crate::sends::Sends;
use crate::session::Session;
use crate::store_guard::StoreGuard;
use crate::totals::{Counting, Totals};
use crate::turns::Turns;
use mvo_disk::Disk;
use mvo_marks::{Marks, Seat};
use mvo_types::{Refusal, Stamp};
use std::alloc::Global;
use std::sync::atomic::{AtomicU64, Ordering};
use std::sync::{Mutex, MutexGuard, Wait};
use std::thread;
use std::time::Duration;

/// How often a thread that found the lock of the core taken tries again before it sleeps over it.
const TRIES: u32 = 64;

/// How often it yields at most between two tries. Each try that fails writes the word of the lock,
/// which the thread that has it has to fetch back then.
const MOST_YIELDS: u32 = 32;

/// Who was shown many rows lets others by for so many nanoseconds a row, and no longer than so many
/// in all: half as long as it held the lock for them.
const BY_A_ROW: u64 = 150;

/// So many nanoseconds, a millisecond.
const AT_MOST: u64 = 1_000_000;

/// So many versions are collected at most before the lock of the core is given back: it is held a
/// few dozen microseconds, as long as some hundred reads.
pub(crate) const AT_ONCE: u64 = 128;

/// A store of rows that many threads share: one lock round the core, one round the store, and the
/// marks beside them. The turn (`Turns`) says who flushes next for all who wait.
///
/// No step under the lock of the core touches the disk, and asking what is durable takes no lock.
/// The locks keep what `LockedCore` and `LockedStore` say. It is made of what `Fresh::open` gives.
pub struct Engine<L: Run, D: Disk, G: Gate + Drop> {
    gate: G,
    marks: Marks,
    core: Mutex<LockedCore<L>>,
    store: Mutex<LockedStore<L, D>>,
    turns: Turns,
    /// How many found the lock of the core taken, and wait for it.
    waiting: AtomicU64,
    /// Where one sleeps whom nobody wakes.
    aside: AtomicU64,
    counting: Counting,
    pub(crate) alloc: Global,
    ghost named: { marks ≡ L.marks },
}

impl<L: Run, D: Disk + Drop, G: Gate + Drop> Drop for Engine<L, D, G> {
    fn drop(self) {
        let Engine {
            gate: _,
            marks: _,
            core: _,
            store: _,
            turns: _,
            waiting: _,
            aside: _,
            counting: _,
            alloc: _,
        } = self;
    }
}

impl<L: Run, D: Disk, G: Gate + Drop> Engine<L, D, G> {
    ghost use Rattle.std.specs.Prelude.{◌≡◌, [], None, IfOk, IfErr, IsTrue};
    ghost use Rattle.mvo_types.specs.declared.refusal.Refusal.{Refusal};
    ghost use Rattle.mvo_engine.specs.Asked.{WasMade, WasDown};
    ghost use Rattle.mvo_engine.specs.Audited.{IsAudited};
    ghost use Rattle.mvo_engine.specs.Opened.{IsNamedBy};
    ghost use Rattle.mvo_engine.specs.Ending.{IsShutDown};
    ghost use Rattle.mvo_engine.specs.declared.engine.TheConstants.{AT_ONCE};
    ghost use Rattle.mvo_engine.specs.Collecting.{HaveCollected};
    ghost use Rattle.mvo_engine.specs.Flushing.{IsClosingFirst, IsWholeFlush};

    /// An engine of these parts, which name its run.
    pub fn new(fresh: Fresh<D>, gate: G) -> Engine<L, D, G>
        requires { IsNamedBy D.Disk L.opening L.marks L.ring L.name L.parts fresh }
    {
        let Fresh {
            alloc,
            core,
            store,
            producer,
            consumer,
            marks,
            publisher,
            seat,
            blank,
        } = fresh;
        let groups = groups_up_to(store.mark());
        let sends = Sends::new(producer, groups, seat);
        let ledger = blank.open::<L>();
        Engine {
            gate,
            marks,
            core: Mutex::new(LockedCore::new(alloc, core, sends, ledger)),
            store: Mutex::new(LockedStore::new(store, consumer, groups, publisher)),
            turns: Turns::new(),
            waiting: AtomicU64::new(0),
            aside: AtomicU64::new(0),
            counting: Counting::new(),
            alloc,
        }
    }

    /// A session, which has begun no transaction and has no receipts. Refused with TableFull where
    /// there are as many as may be (`MAX_SESSIONS`): made, and not retired (`retire`).
    pub fn session<R: Wait>(&self, rt: &R) -> Result<Session<'_, L, D, G>, Refusal>
        ensures ok { IfOk result (λ session. session.tx ≡ None) }
        ensures receipts { IfOk result (λ session. session.receipts ≡ []) }
        ensures forgotten { IfOk result (λ session. session.forgotten ≡ 0) }
        ensures err { IfErr result (λ r. r ≡ Refusal.TableFull) }
        ensures made { WasMade L.opening result }
    {
        let mut core = self.enter_core(rt);
        match core.another(&self.marks) {
            Some((seat, receipts)) => Ok(Session::new(self, seat, receipts)),
            None => Err(Refusal::TableFull),
        }
    }

    /// Closes the next group, where there is one to close and room for it, and makes each closed
    /// group durable, with a rotation of the log where the segment is full. Answers the store's
    /// mark, which any session polls with yes from then on. Other threads may begin, read, write
    /// and commit meanwhile.
    ///
    /// The lock of the store is taken anew for each group (`StoreGuard::flush_one`).
    ///
    /// Refused, what was made durable stays so: OutOfMemory, Down, DiskFault, and where the log has
    /// to be rotated ClockSpent, SegmentsFull, and Busy beside a job: a job that a refusal stopped
    /// is brought on by its own steps alone, under the guard of the store.
    pub fn flush<R: Wait>(&self, rt: &R) -> Result<Stamp, Refusal>
        ensures { IsWholeFlush D.Disk result }
    {
        match self.close_group(rt) {
            Ok(()) => {}
            Err(refusal) => return Err(refusal),
        }
        for _ in rt.forever() {
            let mut store = self.lock_store(rt);
            let since = self.nanos();
            let came = store.flush_one();
            self.count_hold(since);
            match came {
                Ok(true) => {}
                Ok(false) => return Ok(store.mark()),
                Err(refusal) => return Err(refusal),
            }
        }
        unreachable!()
    }

    /// Takes every garbage version out of memory, and answers how many there were. Which are
    /// garbage depends on the start of the tale (`CoreGuard::trim_tale`), so it is called behind a
    /// trim. The lock of the core is given back after each 128 versions, so that sessions go on
    /// meanwhile; those that come to be garbage in the meantime are taken too. It takes no memory.
    pub fn collect<R: Wait>(&self, rt: &R) -> u64
        ensures { HaveCollected AT_ONCE result }
    {
        let mut all = 0u64;
        for _ in rt.forever() {
            let taken = self.enter_core(rt).collect_up_to(AT_ONCE);
            all = all.saturating_add(taken);
            if taken < AT_ONCE {
                return all;
            }
            thread::yield_now();
        }
        unreachable!()
    }

    // Closes the next group, where there is one to close and room for it.
    fn close_group<R: Wait>(&self, rt: &R) -> Result<(), Refusal>
        ensures { IsClosingFirst result }
    {
        match self.enter_core(rt).close_group(&self.marks) {
            Ok(_) => {
                self.counting.count_group();
                Ok(())
            }
            Err(Refusal::NothingToDo | Refusal::RingFull) => Ok(()),
            Err(refusal) => Err(refusal),
        }
    }

    /// The lock of the core, taken.
    pub fn lock_core<R: Wait>(&self, rt: &R) -> CoreGuard<'_, L> {
        CoreGuard::new(self.enter_core(rt))
    }

    /// The lock of the store, taken. Who makes commits durable for others, or makes a step of a job
    /// (`make_durable`, `checkpoint`), is let by for a moment first.
    pub fn lock_store<R: Wait>(&self, rt: &R) -> StoreGuard<'_, L, D> {
        self.turns.stand_back(rt);
        self.guard_store(rt)
    }

    // The same, for who has the turn or is let by.
    fn guard_store<R: Wait>(&self, rt: &R) -> StoreGuard<'_, L, D> {
        StoreGuard::new(self.enter_store(rt), &self.marks, &self.turns)
    }

    /// What is known with both locks: the groups that were received are a beginning of those that
    /// were sent, which agree with the history, and so does each image that a stop now may leave.
    /// It changes nothing, takes no memory and waits for nobody.
    pub fn audit(&self, core: &mut CoreGuard<'_, L>, store: &mut StoreGuard<'_, L, D>)
        ensures audited { IsAudited D.Disk L.opening core.old store.old }
        ensures core { core.new ≡ core.old }
        ensures store { store.new ≡ store.old }
    {
        core.held.audit(&mut *store.held);
    }

    /// The disk, as it stands, and what is known of it at the end: the groups that it received are
    /// a beginning of those that were sent, and these hold the commits of the one history under the
    /// lock of the core. Where the disk was formatted and has answered as written, it gives the
    /// opening rows followed by groups that it received, up to a mark at least all of `seen`: no
    /// commit is missing that a session was told to be durable. So does each image that a stop may
    /// leave of it from now on. Of a disk that wasn't formatted, or has lied, nothing is said of
    /// what it gives. It takes no memory, and waits for nobody.
    pub fn into_disk(self, seen: Vec<SeenDurable<L>>) -> D
        ensures { IsShutDown D.Disk L.opening seen.items result }
    {
        let Engine {
            gate: _,
            marks,
            core,
            store,
            turns: _,
            waiting: _,
            aside: _,
            counting: _,
            alloc: _,
        } = self;
        let mut store = store.into_inner();
        confirm_all(&marks, &mut store, seen);
        shut_down(core.into_inner(), store)
    }

    // Passes the gate and takes the lock of the core. Where it is taken this one is counted among
    // those that wait, until it has it.
    pub(crate) fn enter_core<R: Wait>(&self, rt: &R) -> MutexGuard<'_, LockedCore<L>> {
        self.gate.pass(Place::Core);
        if let Some(core) = self.core.try_lock() {
            return core;
        }
        self.waiting.fetch_add(1, Ordering::SeqCst);
        let core = self.await_core(rt);
        self.waiting.fetch_sub(1, Ordering::SeqCst);
        core
    }

    // Takes the lock of the core. It tries for a while first, since a step gives the lock back
    // sooner than a thread falls asleep and is woken. It rests before each try, longer from one to
    // the next, so that who has the lock isn't held up by tries.
    fn await_core<R: Wait>(&self, rt: &R) -> MutexGuard<'_, LockedCore<L>> {
        let mut yields = 1;
        for _ in 0..TRIES {
            rest(yields);
            if let Some(core) = self.core.try_lock() {
                return core;
            }
            yields = yields.saturating_mul(2).min(MOST_YIELDS);
        }
        self.core.lock(rt)
    }

    // Lets those in who wait for the core, by who was shown so many rows under its lock and gave it
    // back: else it would have the lock again before who waits tries the next time. It sleeps, so
    // that they run where processors are short, and nobody wakes it.
    pub(crate) fn let_others_in<R: Wait>(&self, rt: &R, rows: u64) {
        if self.waiting.load(Ordering::SeqCst) == 0 {
            return;
        }
        let nanos = rows.saturating_mul(BY_A_ROW).min(AT_MOST);
        self.aside.park_timeout(rt, 0, Duration::from_nanos(nanos));
    }

    // Passes the gate and takes the lock of the store.
    pub(crate) fn enter_store<R: Wait>(&self, rt: &R) -> MutexGuard<'_, LockedStore<L, D>> {
        self.gate.pass(Place::Store);
        self.store.lock(rt)
    }

    // Whether the store is down, at a mark that is at least what the seat has seen.
    pub(crate) fn is_down<R: Wait>(&self, rt: &R, seat: &mut Seat) -> bool
        requires { seat.old.marks ≡ L.marks }
        ensures down { IsTrue result → WasDown D.Disk L.opening seat.old.known.durable }
        ensures seat { seat.new ≡ seat.old }
    {
        self.enter_store(rt).is_down(&self.marks, seat)
    }

    // Who flushes next, and where the others sleep.
    pub(crate) fn turns(&self) -> &Turns {
        &self.turns
    }

    /// What was counted since the engine was opened. It takes no lock and no memory, and none of it
    /// is promised: no clause speaks of these numbers.
    pub fn totals(&self) -> Totals {
        self.counting.totals()
    }

    // How many nanoseconds have gone by.
    pub(crate) fn nanos(&self) -> u64 {
        self.gate.nanos()
    }

    // The lock of the store was held from that moment on.
    pub(crate) fn count_hold(&self, since: u64) {
        self.counting.count_hold(since, self.gate.nanos());
    }

    // Where it is counted.
    pub(crate) fn counting(&self) -> &Counting {
        &self.counting
    }

    // The marks.
    pub(crate) fn marks(&self) -> &Marks
        ensures { result.now ≡ L.marks }
    {
        &self.marks
    }
}

// Yields so often.
fn rest(yields: u32) {
    for _ in 0..yields {
        thread::yield_now();
    }
}

// Each of `seen` is at most the store's mark.
#[tactic(auto, using(crate::proofs::Pouring::one_more))]
fn confirm_all<L: Run, D: Disk>(
    marks: &Marks,
    store: &mut LockedStore<L, D>,
    seen: Vec<SeenDurable<L>>,
)
    requires { marks.now ≡ L.marks }
    ensures covers { AreSeenUpTo (mark_of store.old.store) seen.items }
    ensures store { store.new ≡ store.old }
{
    let mut left = seen;
    while let Some(one) = left.pop() {
        let mut one = one;
        one.confirm(marks, store);
    }
}

// The disk out of what lies under the locks, and what is known with both.
fn shut_down<L: Run, D: Disk>(core: LockedCore<L>, store: LockedStore<L, D>) -> D
    ensures { HasShutDown D.Disk L.opening core store result }
{
    let mut core = core;
    let mut store = store;
    let _ = core.clock();
    core.audit(&mut store);
    store.into_disk()
}
