//! Walks the writes of groups from the last to the first, so many at a time.
ghost use Rattle.std.specs.Prelude.{◌≡◌, ◌+◌, ◌<◌, ◌≤◌, List, [], true, false, IfOk, OnOk};
ghost use Rattle.mvo_group.specs.Data.{GroupData};
ghost use Rattle.mvo_places.specs.Places.{AreSmall};
ghost use Rattle.mvo_ckpt.specs.Building.{IsWalking, IsWalkStep, writes_left, walk_size};

use crate::newest::{Newest, no_writes, take_writes};
use mvo_group::{Group, Record};
use mvo_places::Places;
use std::alloc::{AllocError, Global};

/// The groups that are left, the transactions that are left of the one that was begun, and what
/// the writes that were taken leave.
#[derive(Drop)]
pub struct Walking {
    pub groups: Vec<Group>,
    pub records: Vec<Record>,
    pub newest: Newest,
}

/// No write is taken yet.
pub fn no_walk(alloc: Global, places: &Places, groups: Vec<Group>) -> Walking
    ensures { IsWalking places.now.at groups.items result }
{
    Walking {
        groups,
        records: Vec::new(alloc),
        newest: no_writes(alloc, places.seed()),
    }
}

/// Takes the last transaction of the group that was begun, or begins the last group: one, and a
/// transaction's writes, or nothing where all are taken.
fn take_next(walking: &mut Walking, places: &Places) -> Result<Option<usize>, AllocError>
    ensures { IfOk result (λ found. IsWalkStep places.now.at walking.old found walking.new) }
{
    if let Some(commit) = walking.records.pop() {
        let Record { end, writes } = commit;
        let count = writes.len();
        take_writes(&mut walking.newest, places, end, writes)?;
        return Ok(Some(1 + count));
    }
    let Some(group) = walking.groups.pop() else {
        return Ok(None);
    };
    walking.records = group.into_records();
    Ok(Some(1))
}

/// Takes more than so many writes, groups and transactions counted among them, by whole
/// transactions, or all that are left: whether some may be left.
pub fn take_slice(walking: &mut Walking, places: &Places, most: usize) -> Result<bool, AllocError>
    ensures walks { (gs : List GroupData) → IsWalking places.now.at gs walking.old →
        OnOk result (IsWalking places.now.at gs walking.new) }
    ensures all { IfOk result (λ more. more ≡ false → writes_left walking.new ≡ []) }
    ensures none { IfOk result (λ more. more ≡ false → walk_size walking.new ≡ 0) }
    ensures less { IfOk result (λ more. more ≡ true →
        walk_size walking.new < walk_size walking.old) }
    ensures few { OnOk result (walk_size walking.old ≤ walk_size walking.new + most + 1) }
{
    let mut room = most.saturating_add(1);
    while room > 0 {
        let found = match take_next(walking, places) {
            Ok(found) => found,
            Err(refused) => return Err(refused),
        };
        let Some(count) = found else {
            return Ok(false);
        };
        room = room.saturating_sub(count);
    }
    Ok(true)
}
