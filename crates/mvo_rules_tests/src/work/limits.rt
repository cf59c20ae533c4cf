use crate::content::{insert_key, key_of, nothing_shown, read_key};
use crate::equal::{holds, same};
use mvo_content::WorkContent;
use mvo_model::Serial;
use mvo_types::Entry;
use std::alloc::Global;
use std::process::Abort;
use std::test::Fail;

fn read_all(rt: &impl Abort, content: &mut WorkContent, others: &Serial) -> Result<(), Fail> {
    for key in 0..4096 {
        let is_told = read_key(content, others, key)?;
        holds(rt, is_told);
    }
    same(rt, &content.entry_count(), &4096);
    for (entry, is_too_many) in [
        (Entry::Key(key_of(4096)), true),
        (Entry::Range(3, 0, 4095), true),
        (Entry::Key(key_of(0)), false),
        (Entry::Key(key_of(4095)), false),
    ] {
        same(rt, &content.is_entry_too_many(entry), &is_too_many);
    }
    holds(rt, !content.has_writes());
    Ok(())
}

#[test]
fn a_transaction_keeps_4096_entries(rt: HostRuntime) -> Result<(), Fail> {
    let content = &mut WorkContent::new(rt.alloc());
    read_all(&rt, content, &nothing_shown(rt.alloc()))
}

/// An insert of the key is told, unless it is a write too many.
fn insert(
    rt: &impl Abort,
    alloc: Global,
    content: &mut WorkContent,
    others: &Serial,
    key: u64,
    is_too_many: bool,
) -> Result<(), Fail> {
    same(rt, &content.is_write_too_many(key_of(key)), &is_too_many);
    let is_told = insert_key(alloc, content, others, key)?;
    same(rt, &is_told, &!is_too_many);
    Ok(())
}

fn insert_all(
    rt: &impl Abort,
    alloc: Global,
    content: &mut WorkContent,
    others: &Serial,
) -> Result<(), Fail> {
    for key in 0..256 {
        insert(rt, alloc, content, others, key, false)?;
    }
    insert(rt, alloc, content, others, 256, true)?;
    insert(rt, alloc, content, others, 255, false)?;
    same(rt, &content.keys_written()?.len(), &256);
    Ok(())
}

#[test]
fn a_transaction_writes_256_keys(rt: HostRuntime) -> Result<(), Fail> {
    let content = &mut WorkContent::new(rt.alloc());
    insert_all(&rt, rt.alloc(), content, &nothing_shown(rt.alloc()))
}
