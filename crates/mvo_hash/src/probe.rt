ghost use Rattle.std.specs.Prelude.{◌<◌, ◌≤◌, length, IfSome, IfNone};
ghost use Rattle.mvo_hash.specs.Slots.{IsReached, IsFoundAt, IsNowhere, IsNowhereIn, IsEnding, IsFreeFrom, HasUnused};

use crate::slot::Slot;
use mvo_types::RowKey;

/// Where the key stands: the search begins at its home, goes on at the first slot where it comes to
/// the end, and ends at the first slot that is empty.
#[inline(always)]
pub fn find(slots: &[Slot], home: usize, key: RowKey) -> Option<usize>
    requires within { home ≤ length slots.now }
    requires reached { IsReached slots.now home key }
    ensures found { IfSome result (λ i. IsFoundAt slots.now key i) }
    ensures nowhere { IfNone result (IsNowhere slots.now key) }
{
    for i in home..slots.len() {
        let slot = &slots[i];
        if slot.holds(key) {
            return Some(i);
        }
        if slot.is_empty() {
            return None;
        }
    }
    find_before(slots, home, key)
}

// Where the key stands before its home, where it isn't behind. Few searches come here.
#[cold]
#[inline(never)]
fn find_before(slots: &[Slot], home: usize, key: RowKey) -> Option<usize>
    requires within { home ≤ length slots.now }
    requires reached { IsReached slots.now home key }
    requires behind { IsNowhereIn slots.now home (length slots.now) key }
    ensures found { IfSome result (λ i. IsFoundAt slots.now key i) }
    ensures nowhere { IfNone result (IsNowhere slots.now key) }
{
    let at = ending(slots, 0, home, key);
    if at < home && slots[at].holds(key) {
        return Some(at);
    }
    None
}

// Where a search over the slots from one place up to another ends: at the key or at an empty slot,
// else behind them.
fn ending(slots: &[Slot], from: usize, to: usize, key: RowKey) -> usize
    requires ordered { from ≤ to }
    requires within { to ≤ length slots.now }
    ensures ahead { from ≤ result }
    ensures within { result ≤ to }
    ensures passed { IsNowhereIn slots.now from result key }
    ensures ended { result < to → IsEnding slots.now key result }
{
    for i in from..to {
        let slot = &slots[i];
        if slot.holds(key) || slot.is_empty() {
            return i;
        }
    }
    to
}

/// The first slot from the home on that holds no key; behind the last one it is the first of all.
pub fn free(slots: &[Slot], home: usize) -> usize
    requires { HasUnused slots.now }
    ensures { IsFreeFrom slots.now home result }
{
    for i in home..slots.len() {
        if !slots[i].is_live() {
            return i;
        }
    }
    first_free(slots)
}

// The first slot that holds no key.
#[cold]
#[inline(never)]
fn first_free(slots: &[Slot]) -> usize
    requires { HasUnused slots.now }
    ensures { IsFreeFrom slots.now 0 result }
{
    for i in 0..slots.len() {
        if !slots[i].is_live() {
            return i;
        }
    }
    slots.len()
}

/// How many slots a search for the key goes over before the one where it ends.
pub fn steps(slots: &[Slot], home: usize, key: RowKey) -> usize
    requires { home ≤ length slots.now }
    ensures { result ≤ length slots.now }
{
    let at = ending(slots, home, slots.len(), key);
    if at < slots.len() {
        return at - home;
    }
    at - home + ending(slots, 0, home, key)
}
