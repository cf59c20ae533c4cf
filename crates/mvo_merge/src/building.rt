//! Builds a merged pair.
ghost use Rattle.std.specs.Prelude.{◌≡◌, ◌≤◌, ◌+◌, ◌++◌, length, map, IfOk, OnOk};
ghost use Rattle.mvo_places.specs.Places.{Rise};
ghost use Rattle.mvo_merge.specs.Merged.{merged, renumbering_of};

use crate::merged::Merged;
use crate::renumbering::Renumbering;
use mvo_pair::{DataRecord, Live};
use mvo_types::MAX_PAIR_RECORDS;
use std::alloc::{AllocError, Global};

/// Appends the records without their numbers.
pub fn add_records(records: &mut Vec<DataRecord>, live: Vec<Live>) -> Result<(), AllocError>
    ensures { OnOk result (records.new.items ≡
        records.old.items ++ map (λ l. l.1) live.items) }
{
    for one in live {
        records.push(one.entry)?;
    }
    Ok(())
}

/// What a merge makes of the live records of two neighbouring pairs, each as loading gives them.
/// Memory is taken before a record is moved, and the rows are moved, not copied.
pub fn build(alloc: Global, left: Vec<Live>, right: Vec<Live>) -> Result<Merged, AllocError>
    requires rise_left { Rise left.items }
    requires rise_right { Rise right.items }
    requires few { length left.items + length right.items ≤ MAX_PAIR_RECORDS }
    ensures records { IfOk result (λ m. m.records ≡ merged left.items right.items) }
    ensures renumbering { IfOk result (λ m. m.renumbering ≡ renumbering_of left.items right.items) }
{
    let renumbering = Renumbering::new(alloc, &left, &right)?;
    let mut records = Vec::with_capacity(alloc, left.len() + right.len())?;
    add_records(&mut records, left)?;
    add_records(&mut records, right)?;
    Ok(Merged {
        records,
        renumbering,
    })
}
