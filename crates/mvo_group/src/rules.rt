ghost use Rattle.std.specs.Prelude.{◌≡◌, ◌+◌, ◌<◌, ◌≤◌, ◌^◌, ◌↔◌, IsTrue, map, All, sum_by};
ghost use Rattle.std.specs.List.Sorted.{IsStrictlySortedBy};
ghost use Rattle.std.specs.Ordering.{is_lt};
ghost use Rattle.mvo_types.specs.Keys.{key_cmp};
ghost use Rattle.mvo_types.specs.declared.limits.TheConstants.{MAX_TABLE, MAX_DATA_LEN};
ghost use Rattle.mvo_group.specs.Data.{write_data, group_of};
ghost use Rattle.mvo_group.specs.Rules.{HasWords, EndsRise, KeepsRules, record_len};
ghost use Rattle.mvo_group.specs.Allowed.{IsWriteWithin, IsRecordWithin, IsAllowedGroup};

use crate::lengths::BODY_HEADER_LEN;
use crate::record::Record;
use crate::write::Write;
use mvo_format::Format;
use mvo_types::{MAX_BODY_LEN, MAX_DATA_LEN, MAX_RECORDS, MAX_STAMP, MAX_TABLE, MAX_WRITES, Stamp};

fn is_table(format: Format, table: u8) -> bool
    ensures { IsTrue result ↔ ((table ≤ MAX_TABLE) × (table ≤ format.max_table)) }
{
    table <= MAX_TABLE && table <= format.max_table
}

fn is_len(format: Format, len: usize) -> bool
    ensures { IsTrue result ↔ ((len ≤ MAX_DATA_LEN) × (len ≤ format.max_data_len)) }
{
    len <= MAX_DATA_LEN && len <= format.max_data_len as usize
}

/// Whether the write keeps the limits of a row and of the version.
fn keeps_limits(format: Format, write: &Write) -> bool
    ensures answer { IsTrue result ↔ IsWriteWithin format (write_data write.now) }
    ensures words { HasWords (write_data write.now) }
{
    match write {
        Write::Put(row) => {
            let _sort = row.sort;
            let _key = row.key.key;
            let len = row.data_len();
            is_table(format, row.key.table) && is_len(format, len)
        }
        Write::Delete(key) => {
            let _key = key.key;
            is_table(format, key.table)
        }
    }
}

fn all_keep_limits(format: Format, writes: &[Write]) -> bool
    ensures answer { IsTrue result ↔ All (IsWriteWithin format) (map write_data writes.now) }
    ensures words { IsTrue result → All HasWords (map write_data writes.now) }
{
    for write in writes {
        if !keeps_limits(format, write) {
            return false;
        }
    }
    true
}

/// Whether the first write goes below the second.
fn is_below(first: &Write, second: &Write) -> bool
    ensures { result ≡ is_lt (key_cmp (write_data first.now).0 (write_data second.now).0) }
{
    first.key() < second.key()
}

/// Whether (table, key) rises strictly.
fn keys_rise(writes: &[Write]) -> bool
    ensures { IsTrue result
        ↔ IsStrictlySortedBy key_cmp (map (λ w. w.0) (map write_data writes.now)) }
{
    let mut rest = writes;
    while let [first, after @ ..] = rest {
        if let [second, ..] = after {
            if !is_below(first, second) {
                return false;
            }
        }
        rest = after;
    }
    true
}

fn is_record(format: Format, commit: &Record) -> bool
    ensures answer { IsTrue result ↔ IsRecordWithin format commit.now }
    ensures words { IsTrue result → All HasWords commit.now.writes }
{
    let count = commit.writes.len();
    1 <= count
        && count <= MAX_WRITES
        && keys_rise(&commit.writes)
        && all_keep_limits(format, &commit.writes)
}

fn are_records(format: Format, records: &[Record]) -> bool
    ensures answer { IsTrue result ↔ All (IsRecordWithin format) records.now }
    ensures words { IsTrue result → All (λ r. All HasWords r.writes) records.now }
{
    for commit in records {
        if !is_record(format, commit) {
            return false;
        }
    }
    true
}

/// Whether the ends rise strictly and lie in (prev, mark].
fn ends_rise(prev: Stamp, mark: Stamp, records: &[Record]) -> bool
    ensures { IsTrue result ↔ EndsRise prev.0 mark.0 records.now }
{
    let mut last = prev.0;
    let mut rest = records;
    while let [first, after @ ..] = rest {
        let end = first.end.0;
        if end <= last || end > mark.0 {
            return false;
        }
        last = end;
        rest = after;
    }
    true
}

/// How many bytes the body of a group with these records has.
pub fn len_of_body(records: &[Record]) -> usize
    requires { BODY_HEADER_LEN + sum_by record_len records.now < 2 ^ 64 }
    ensures { result ≡ BODY_HEADER_LEN + sum_by record_len records.now }
{
    let mut len = BODY_HEADER_LEN;
    for commit in records {
        len += commit.encoded_len();
    }
    len
}

/// Whether these are the parts of a group of which the version allows each write.
pub fn keeps_rules(format: Format, prev: Stamp, mark: Stamp, records: &[Record]) -> bool
    ensures answer { let g = group_of prev.0 mark.0 records.now in
        IsTrue result ↔ (KeepsRules g × IsAllowedGroup format g) }
    ensures words { IsTrue result → All (λ r. All HasWords r.writes) records.now }
{
    if records.len() > MAX_RECORDS {
        return false;
    }
    if !are_records(format, records) {
        return false;
    }
    prev.0 < mark.0
        && mark.0 <= MAX_STAMP
        && ends_rise(prev, mark, records)
        && len_of_body(records) <= MAX_BODY_LEN
}
