ghost use Rattle.std.specs.Prelude.{◌≡◌, List, length, map, IfOk, IfSome, Ok, Option, Some, None};
ghost use Rattle.mvo_group.specs.Data.{write_data, group_of};
ghost use Rattle.mvo_bytes.specs.Reading.{ReadingGives, Reads, number_at, data_at, times};
ghost use Rattle.mvo_group.specs.Reading.{put_at, effect_at, keyed_write_at, record_at, group_at};

use crate::record::Record;
use crate::write::{DELETE, PUT, Write};
use mvo_bytes::{u8_at, u16_at, u64_at};
use mvo_types::{MAX_RECORDS, MAX_WRITES, Row, RowKey, Stamp};
use std::alloc::{AllocError, Global};

#[tactic(auto, unfolding(mvo_bytes::specs::Reading::data_at))]
fn data_of(len: u16, bytes: &[u8]) -> Option<(&[u8], &[u8])>
    ensures { Reads (λ d. d.now) result (data_at len bytes.now) }
{
    let len = len as usize;
    if bytes.len() < len {
        return None;
    }
    Some(bytes.split_at(len))
}

#[tactic(auto, unfolding(crate::specs::Reading::put_at))]
fn put_of(bytes: &[u8]) -> Option<((u64, &[u8]), &[u8])>
    ensures { Reads (λ c. record { sort = c.0; bytes = c.1.now }) result (put_at bytes.now) }
{
    let (sort, rest) = u64_at(bytes)?;
    let (len, rest) = u16_at(rest)?;
    let (data, rest) = data_of(len, rest)?;
    Some(((sort, data), rest))
}

#[tactic(auto, unfolding(crate::specs::Reading::keyed_write_at, crate::specs::Reading::effect_at))]
fn write_of(alloc: Global, bytes: &[u8]) -> Result<Option<(Write, &[u8])>, AllocError>
    ensures { IfOk result (λ found. Reads write_data found (keyed_write_at bytes.now)) }
{
    let Some((tag, rest)) = u8_at(bytes) else {
        return Ok(None);
    };
    let Some((table, rest)) = u8_at(rest) else {
        return Ok(None);
    };
    let Some((key, rest)) = u64_at(rest) else {
        return Ok(None);
    };
    let key = RowKey { table, key };
    if tag == DELETE {
        return Ok(Some((Write::Delete(key), rest)));
    }
    if tag != PUT {
        return Ok(None);
    }
    let Some(((sort, data), rest)) = put_of(rest) else {
        return Ok(None);
    };
    let row = Row::from_slice(alloc, key, sort, data)?;
    Ok(Some((Write::Put(row), rest)))
}

fn writes_of(
    alloc: Global,
    count: u16,
    bytes: &[u8],
) -> Result<Option<(Vec<Write>, &[u8])>, AllocError>
    ensures { IfOk result (λ found. Reads (λ ws. map write_data ws.items) found
        (times keyed_write_at count bytes.now)) }
{
    let mut writes = Vec::with_capacity(alloc, MAX_WRITES.min(count as usize))?;
    let mut rest = bytes;
    for _ in 0..count {
        let Some((write, after)) = write_of(alloc, rest)? else {
            return Ok(None);
        };
        writes.push(write)?;
        rest = after;
    }
    Ok(Some((writes, rest)))
}

#[tactic(auto, unfolding(crate::specs::Reading::record_at))]
fn record_of(alloc: Global, bytes: &[u8]) -> Result<Option<(Record, &[u8])>, AllocError>
    ensures { IfOk result (λ found. Reads (λ r. r) found (record_at bytes.now)) }
{
    let Some((end, rest)) = u64_at(bytes) else {
        return Ok(None);
    };
    let Some((count, rest)) = u16_at(rest) else {
        return Ok(None);
    };
    let Some((writes, rest)) = writes_of(alloc, count, rest)? else {
        return Ok(None);
    };
    let end = Stamp(end);
    Ok(Some((Record { end, writes }, rest)))
}

fn records_of(
    alloc: Global,
    count: u16,
    bytes: &[u8],
) -> Result<Option<(Vec<Record>, &[u8])>, AllocError>
    ensures { IfOk result (λ found. Reads (λ rs. rs.items) found
        (times record_at count bytes.now)) }
{
    let mut records = Vec::with_capacity(alloc, MAX_RECORDS.min(count as usize))?;
    let mut rest = bytes;
    for _ in 0..count {
        let Some((next, after)) = record_of(alloc, rest)? else {
            return Ok(None);
        };
        records.push(next)?;
        rest = after;
    }
    Ok(Some((records, rest)))
}

/// The prev, the mark and the records that the bytes spell, all of the bytes.
#[tactic(auto, unfolding(crate::specs::Reading::group_at))]
pub fn parts_of(
    alloc: Global,
    bytes: &[u8],
) -> Result<Option<(Stamp, Stamp, Vec<Record>)>, AllocError>
    ensures { IfOk result (λ found. ReadingGives (λ x. group_of x.0.0 x.1.0 x.2.items) found
        (group_at bytes.now)) }
{
    let Some((prev, rest)) = u64_at(bytes) else {
        return Ok(None);
    };
    let Some((mark, rest)) = u64_at(rest) else {
        return Ok(None);
    };
    let Some((count, rest)) = u16_at(rest) else {
        return Ok(None);
    };
    let Some((records, rest)) = records_of(alloc, count, rest)? else {
        return Ok(None);
    };
    if !rest.is_empty() {
        return Ok(None);
    }
    Ok(Some((Stamp(prev), Stamp(mark), records)))
}
