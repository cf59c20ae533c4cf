ghost use Rattle.std.specs.Prelude.{◌≡◌, ◌++◌, ◌∷◌, ◌+◌, ◌<◌, ◌≤◌, ◌^◌, length, map, vec_capacity, All};
ghost use Rattle.std.specs.List.{flat_map};
ghost use Rattle.mvo_group.specs.Data.{write_data, group_of};
ghost use Rattle.mvo_bytes.specs.Fields.{field};
ghost use Rattle.mvo_group.specs.Body.{write_bytes, record_bytes, body_of};
ghost use Rattle.mvo_group.specs.Rules.{KeepsLimits, IsRecord, KeepsRules, body_len};

use crate::lengths::{BODY_HEADER_LEN, DELETE_LEN, PUT_HEADER_LEN, RECORD_HEADER_LEN};
use crate::record::Record;
use crate::write::{DELETE, PUT, Write};
use byteorder::{ByteOrder, LittleEndian};
use mvo_types::{Row, RowKey, Stamp};

#[tactic(auto, unfolding(mvo_bytes::specs::Fields::field))]
fn put_header(row: &Row) -> [u8; PUT_HEADER_LEN]
    requires { length row.now.bytes < 2 ^ 16 }
    ensures { result ≡ PUT ∷ row.now.key.table ∷ field 8 row.now.key.key
        ++ field 8 row.now.sort ++ field 2 (length row.now.bytes) }
{
    let mut header = [0; PUT_HEADER_LEN];
    header[0] = PUT;
    header[1] = row.key.table;
    LittleEndian::write_u64(&mut header[2..], row.key.key);
    LittleEndian::write_u64(&mut header[10..], row.sort);
    LittleEndian::write_u16(&mut header[18..], row.data_len() as u16);
    header
}

#[tactic(auto, unfolding(mvo_bytes::specs::Fields::field))]
fn delete_header(key: RowKey) -> [u8; DELETE_LEN]
    ensures { result ≡ DELETE ∷ key.table ∷ field 8 key.key }
{
    let mut header = [0; DELETE_LEN];
    header[0] = DELETE;
    header[1] = key.table;
    LittleEndian::write_u64(&mut header[2..], key.key);
    header
}

#[tactic(auto, unfolding(mvo_bytes::specs::Fields::field))]
fn record_header(end: Stamp, count: u16) -> [u8; RECORD_HEADER_LEN]
    ensures { result ≡ field 8 end.0 ++ field 2 count }
{
    let mut header = [0; RECORD_HEADER_LEN];
    LittleEndian::write_u64(&mut header, end.0);
    LittleEndian::write_u16(&mut header[8..], count);
    header
}

#[tactic(auto, unfolding(mvo_bytes::specs::Fields::field))]
fn group_header(prev: Stamp, mark: Stamp, count: u16) -> [u8; BODY_HEADER_LEN]
    ensures { result ≡ field 8 prev.0 ++ field 8 mark.0 ++ field 2 count }
{
    let mut header = [0; BODY_HEADER_LEN];
    LittleEndian::write_u64(&mut header, prev.0);
    LittleEndian::write_u64(&mut header[8..], mark.0);
    LittleEndian::write_u16(&mut header[16..], count);
    header
}

/// Appends bytes for which there is room.
fn append(out: &mut Vec<u8>, bytes: &[u8])
    requires { length out.old.items + length bytes.now ≤ vec_capacity out.old }
    ensures items { out.new.items ≡ out.old.items ++ bytes.now }
    ensures room { vec_capacity out.old ≤ vec_capacity out.new }
{
    let _ = out.extend_from_slice(bytes);
}

fn append_write(out: &mut Vec<u8>, write: &Write)
    requires limits { KeepsLimits (write_data write.now) }
    requires room { length out.old.items + length (write_bytes (write_data write.now))
        ≤ vec_capacity out.old }
    ensures items { out.new.items ≡ out.old.items ++ write_bytes (write_data write.now) }
    ensures room { vec_capacity out.old ≤ vec_capacity out.new }
{
    match write {
        Write::Put(row) => {
            append(out, &put_header(row));
            append(out, row.bytes());
        }
        Write::Delete(key) => append(out, &delete_header(*key)),
    }
}

fn append_writes(out: &mut Vec<u8>, writes: &[Write])
    requires limits { All KeepsLimits (map write_data writes.now) }
    requires room { length out.old.items
        + length (flat_map write_bytes (map write_data writes.now)) ≤ vec_capacity out.old }
    ensures items { out.new.items
        ≡ out.old.items ++ flat_map write_bytes (map write_data writes.now) }
    ensures room { vec_capacity out.old ≤ vec_capacity out.new }
{
    for write in writes {
        append_write(out, write);
    }
}

fn append_record(out: &mut Vec<u8>, commit: &Record)
    requires rules { IsRecord commit.now }
    requires room { length out.old.items + length (record_bytes commit.now) ≤ vec_capacity out.old }
    ensures items { out.new.items ≡ out.old.items ++ record_bytes commit.now }
    ensures room { vec_capacity out.old ≤ vec_capacity out.new }
{
    append(out, &record_header(commit.end, commit.writes.len() as u16));
    append_writes(out, &commit.writes);
}

fn append_records(out: &mut Vec<u8>, records: &[Record])
    requires rules { All IsRecord records.now }
    requires room { length out.old.items + length (flat_map record_bytes records.now)
        ≤ vec_capacity out.old }
    ensures { out.new.items ≡ out.old.items ++ flat_map record_bytes records.now }
{
    for commit in records {
        append_record(out, commit);
    }
}

/// Appends the body of the group with these parts.
pub fn append_body(out: &mut Vec<u8>, prev: Stamp, mark: Stamp, records: &[Record])
    requires rules { KeepsRules (group_of prev.0 mark.0 records.now) }
    requires room { length out.old.items + body_len (group_of prev.0 mark.0 records.now)
        ≤ vec_capacity out.old }
    ensures { out.new.items ≡ out.old.items ++ body_of (group_of prev.0 mark.0 records.now) }
{
    append(out, &group_header(prev, mark, records.len() as u16));
    append_records(out, records);
}
