ghost use Rattle.std.specs.Prelude.{◌≡◌, ◌+◌, ◌-◌, ◌<◌, ◌≤◌, length, take, true, MatchBool};
ghost use Rattle.mvo_tale.specs.Slots.{without_empty_back, closed_up};
ghost use Rattle.mvo_tale.specs.Forgetting.{behind_gone, from_kept, goes_first};

use crate::next_records::NextRecords;
use crate::spare_lists::SpareLists;
use crate::tale_entry::TaleEntry;
use crate::tale_place::TalePlace;
use crate::walk::records_from;
use mvo_queue::Queue;
use mvo_types::{Answer, MAX_STAMP, Op, Stamp};
use std::alloc::{AllocError, Global};
use std::marker::Model;

/// The stored commits, in the order of their ends. Transactions draw their ends in order, and are
/// settled or aborted in any order: so each end has a place, from 0 on, which is open until then. A
/// read-only transaction ends where it began: its place is opened as it begins, and groups go on
/// past it. Contracts see the list of places. The ends rise over them.
///
/// Places keep their numbers. Of those at the front from which nothing is stored any more there is
/// only the number, how many they are: contracts see them as empty. The lists of operations of the
/// commits that are forgotten are kept for transactions that begin: at most 64 of them, each with
/// room for at most 128 operations. Contracts don't see them.
pub struct Tale {
    slots: Queue<TalePlace>,
    /// How many places at the front are gone.
    gone: usize,
    spare: SpareLists,
}

impl Drop for Tale {
    fn drop(self) {
        let Tale {
            slots: _,
            gone: _,
            spare: _,
        } = self;
    }
}

impl Model for Tale {
    ghost use Rattle.std.specs.Prelude.{List, length, ◌+◌, ◌<◌, ◌^◌};
    ghost use Rattle.mvo_tale.specs.declared.tale_place.TalePlace.{TalePlace as Place};
    ghost use Rattle.mvo_tale.specs.Slots.{AreRising, ends};
    ghost use Rattle.mvo_tale.specs.Forgetting.{behind_gone};

    ghost Value = { List Place };

    ghost view = { λ t. behind_gone t.gone t.slots.items };

    ghost invariant = { λ t. AreRising (ends t.slots.items)
        × (t.gone + length t.slots.items < 2 ^ 64) };
}

impl Tale {
    ghost use Rattle.std.specs.Prelude.{◌≡◌, ◌++◌, ◌∷◌, [], ◌<◌, ◌≤◌, length, slice_get, slice_set};
    ghost use Rattle.std.specs.Prelude.{IfOk, OnOk, OnErr, IfSome, IsSome, Some};
    ghost use Rattle.std.specs.List.{AllByRecursion};
    ghost use Rattle.std.specs.Option.{option_copied, option_map};
    ghost use Rattle.mvo_group.specs.Data.{group_of};
    ghost use Rattle.mvo_group.specs.Rules.{KeepsRules};
    ghost use Rattle.mvo_tale.specs.declared.tale_place.TalePlace.TheVariants.{Open, Reading};
    ghost use Rattle.mvo_tale.specs.declared.tale_place.TalePlace.TheVariants.{Settled, Empty};
    ghost use Rattle.mvo_tale.specs.Slots.{AreRising, ends, open_ends};
    ghost use Rattle.mvo_tale.specs.Slots.{pending_end_at, stored_at, closed_up, end_at_back};
    ghost use Rattle.mvo_tale.specs.Forgetting.{forgotten, slot_or_empty};
    ghost use Rattle.mvo_tale.specs.Next.{AreGroupedTo, AreNextRecords};

    /// No places. It takes no memory.
    pub fn new(alloc: Global) -> Tale
        ensures { result ≡ [] }
    {
        Tale {
            slots: Queue::new(alloc),
            gone: 0,
            spare: SpareLists::new(alloc),
        }
    }

    /// Opens a place for an end above all others, and answers which. What it needs to be settled
    /// or left is taken now. Refused, it changes nothing.
    pub fn open(&mut self, end: Stamp) -> Result<usize, AllocError>
        requires { AllByRecursion (λ earlier. earlier < end.0) (ends self.old) }
        ensures place { IfOk result (λ place. place ≡ length self.old) }
        ensures ok { OnOk result (self.new ≡ self.old ++ Open end ∷ []) }
        ensures err { OnErr result (self.new ≡ self.old) }
    {
        let place = self.gone + self.slots.len();
        if place == usize::MAX {
            return Err(AllocError);
        }
        self.slots.push_back(TalePlace::Open(end))?;
        self.spare.make_room();
        Ok(place)
    }

    /// Opens a place for a read-only transaction that begins above all ends, and answers which.
    /// What it needs to be settled or left is taken now. Refused, it changes nothing.
    pub fn open_reading(&mut self, begin: Stamp) -> Result<usize, AllocError>
        requires { AllByRecursion (λ earlier. earlier < begin.0) (ends self.old) }
        ensures place { IfOk result (λ place. place ≡ length self.old) }
        ensures ok { OnOk result (self.new ≡ self.old ++ Reading begin ∷ []) }
        ensures err { OnErr result (self.new ≡ self.old) }
    {
        let place = self.gone + self.slots.len();
        if place == usize::MAX {
            return Err(AllocError);
        }
        self.slots.push_back(TalePlace::Reading(begin))?;
        self.spare.make_room();
        Ok(place)
    }

    /// Stores the commit of the transaction whose place is open for its end. It takes no memory.
    pub fn settle(&mut self, place: usize, entry: TaleEntry)
        requires { pending_end_at self.old place ≡ Some entry.end }
        ensures { self.new ≡ slice_set self.old place (Settled entry) }
    {
        self.slots.set(place - self.gone, TalePlace::Settled(entry));
    }

    /// Empties the open place of a transaction that was aborted. Empty places at the back go,
    /// unless all are empty. It takes no memory.
    pub fn leave(&mut self, place: usize)
        requires { IsSome (pending_end_at self.old place) }
        ensures { self.new ≡ closed_up (slice_set self.old place Empty) }
    {
        self.slots.set(place - self.gone, TalePlace::Empty);
        let gone = drop_back(&mut self.slots);
        self.gone += gone;
    }

    /// Forgets the commits at the front that end at most there, up to a place that is open, also
    /// for a read-only transaction, or one whose commit ends later: such a place is empty then. It
    /// takes no memory, and time by how many go, each of which goes once.
    pub fn forget(&mut self, upto: Stamp)
        ensures { self.new ≡ forgotten upto.0 self.old }
    {
        let gone = drop_front(&mut self.slots, &mut self.spare, upto);
        self.gone += gone;
    }

    /// The memory of the operations of a commit that is forgotten, if one is kept: an empty list.
    /// It takes no memory.
    pub fn spare_list(&mut self) -> Option<Vec<(Op, Answer)>>
        ensures same { self.new ≡ self.old }
        ensures empty { IfSome result (λ list. list.items ≡ []) }
    {
        self.spare.take()
    }

    /// How many places there are.
    pub fn len(&self) -> usize
        ensures count { result ≡ length self.now }
        ensures rising { AreRising (ends self.now) }
    {
        self.gone + self.slots.len()
    }

    /// The end at the back, if that place isn't empty.
    pub fn last_end(&self) -> Option<Stamp>
        ensures { option_map (λ e. e.0) result ≡ end_at_back self.now }
    {
        let count = self.len();
        if count == 0 {
            return None;
        }
        match self.slot(count - 1) {
            Some(place) => place.end(),
            None => None,
        }
    }

    /// The stored commit at a place, if one is there.
    pub fn get(&self, place: usize) -> Option<&TaleEntry>
        ensures { option_copied result ≡ stored_at self.now place }
    {
        if place < self.gone {
            return None;
        }
        match self.slots.get(place - self.gone) {
            Some(slot) => slot.stored(),
            None => None,
        }
    }

    /// What is at the place; of one at the front that is gone, and so empty, nothing.
    pub fn slot(&self, place: usize) -> Option<&TalePlace>
        requires { place < length self.now }
        ensures { slice_get self.now place ≡ Some (slot_or_empty (option_copied result)) }
    {
        if place < self.gone {
            return None;
        }
        self.slots.get(place - self.gone)
    }

    /// The records of the next group, above prev and up to the low-water: of the commits that
    /// wrote, from a place on, as many as a group may have. The place is 0, or where the group
    /// before it goes on. If all fit, its mark is the low-water, else the end of the last that
    /// does. It walks the places from there up to the first that ends above the low-water, or whose
    /// record doesn't fit; where a read-only transaction hasn't ended it goes on. Rows are copied.
    pub fn next_records(
        &self,
        alloc: Global,
        from: usize,
        prev: Stamp,
        low_water: Stamp,
    ) -> Result<NextRecords, AllocError>
        requires above { prev.0 < low_water.0 }
        requires drawn { low_water.0 ≤ MAX_STAMP }
        requires preparing { AllByRecursion (λ end. low_water.0 < end) (open_ends self.now) }
        requires grouped { AreGroupedTo self.now from prev.0 }
        ensures next { IfOk result (AreNextRecords self.now prev.0 low_water.0) }
        ensures rules { IfOk result (λ n. KeepsRules (group_of prev.0 n.mark.0 n.records.items)) }
    {
        let from = self.first_from(from, prev);
        records_from(alloc, self, from, prev, low_water)
    }

    /// The place, or the first that isn't gone where that is behind it.
    fn first_from(&self, from: usize, prev: Stamp) -> usize
        requires { AreGroupedTo self.now from prev.0 }
        ensures { AreGroupedTo self.now result prev.0 }
    {
        if from < self.gone {
            return self.gone;
        }
        from
    }
}

/// Takes the empty places at the back off. Where all are empty, all go, and it answers how many
/// they were.
fn drop_back(slots: &mut Queue<TalePlace>) -> usize
    ensures same { behind_gone result slots.new.items ≡ closed_up slots.old.items }
    ensures few { result + length slots.new.items ≤ length slots.old.items }
{
    let count = slots.len();
    drop_empty(slots);
    if slots.len() == 0 {
        return count;
    }
    0
}

/// Takes the empty places at the back off.
fn drop_empty(slots: &mut Queue<TalePlace>)
    ensures kept { slots.new.items ≡ without_empty_back slots.old.items }
    ensures within { length slots.new.items ≤ length slots.old.items }
{
    while ends_empty(slots) {
        slots.pop_back();
    }
}

/// Whether the last place is empty.
fn ends_empty(slots: &Queue<TalePlace>) -> bool
    ensures some { result ≡ true → 0 < length slots.now.items }
    ensures kept { MatchBool result
        (without_empty_back (take (length slots.now.items - 1) slots.now.items)
        ≡ without_empty_back slots.now.items)
        (slots.now.items ≡ without_empty_back slots.now.items) }
{
    let len = slots.len();
    if len == 0 {
        return false;
    }
    match slots.get(len - 1) {
        Some(slot) => slot.is_empty(),
        None => false,
    }
}

/// Takes the places at the front off from which nothing is lost, and keeps the memory of their
/// lists. Answers how many they were.
fn drop_front(slots: &mut Queue<TalePlace>, spare: &mut SpareLists, upto: Stamp) -> usize
    ensures kept { slots.new.items ≡ from_kept upto.0 slots.old.items }
    ensures count { result + length slots.new.items ≡ length slots.old.items }
{
    let before = slots.len();
    while goes_first(slots, upto) {
        keep_list(spare, slots.pop_front());
    }
    before - slots.len()
}

/// Keeps the memory of the operations of the commit, if one was at the place.
fn keep_list(spare: &mut SpareLists, slot: Option<TalePlace>) {
    if let Some(TalePlace::Settled(entry)) = slot {
        spare.keep(entry.operations);
    }
}

/// Whether the first place goes.
fn goes_first(slots: &Queue<TalePlace>, upto: Stamp) -> bool
    ensures { result ≡ goes_first upto.0 slots.now.items }
{
    match slots.front() {
        Some(slot) => slot.may_go(upto),
        None => false,
    }
}
