ghost use Rattle.std.specs.Prelude.{◌≡◌, IfOk, IfSome, OnOk, IsTrue};
ghost use Rattle.std.specs.List.{AllByRecursion};
ghost use Rattle.std.specs.Option.{option_map};
ghost use Rattle.mvo_types.specs.AnswerData.{answer_data};
ghost use Rattle.mvo_model.specs.History.{write_of};
ghost use Rattle.mvo_theory.specs.Entries.{is_noted, noted, noted_key, written_keys};
ghost use Rattle.mvo_theory.specs.Told.{history_told};
ghost use Rattle.mvo_theory.specs.Limits.{IsInLimits};

use mvo_tale::TaleEntry;
use mvo_types::{Answer, MAX_DATA_LEN, MAX_TABLE, MAX_WRITES, Op, Row, RowKey, Stamp, TxId};
use std::alloc::{AllocError, Global};

/// The key that the operation wrote, if it wrote.
fn key_written(op: &Op, answer: &Answer) -> Option<RowKey>
    ensures { result ≡ option_map (λ w. w.0) (write_of op.now (answer_data answer.now)) }
{
    match (op, answer) {
        (Op::Insert(row), Answer::Inserted) => Some(row.row_key()),
        (Op::Update(row), Answer::Updated) => Some(row.row_key()),
        (Op::Delete(key), Answer::Deleted) => Some(*key),
        _ => None,
    }
}

fn is_among(keys: &[RowKey], key: RowKey) -> bool
    ensures { result ≡ is_noted keys.now key }
{
    keys.contains(&key)
}

fn note(keys: &mut Vec<RowKey>, key: RowKey) -> Result<(), AllocError>
    ensures { OnOk result (keys.new.items ≡ noted keys.old.items key) }
{
    if is_among(keys, key) {
        return Ok(());
    }
    keys.push(key)?;
    Ok(())
}

fn note_write(keys: &mut Vec<RowKey>, write: Option<RowKey>) -> Result<(), AllocError>
    ensures { OnOk result (keys.new.items ≡ noted_key keys.old.items write) }
{
    match write {
        Some(key) => note(keys, key),
        None => Ok(()),
    }
}

/// The keys that the operations wrote, each once.
fn keys_of(alloc: Global, operations: &[(Op, Answer)]) -> Result<Vec<RowKey>, AllocError>
    ensures { IfOk result (λ v. v.items ≡ written_keys (history_told operations.now)) }
{
    let mut keys = Vec::new(alloc);
    for told in operations {
        let (op, answer) = told;
        note_write(&mut keys, key_written(op, answer))?;
    }
    Ok(keys)
}

fn is_row(row: &Row) -> bool
    ensures { IsTrue result → IsInLimits (Op.Insert row.now) }
{
    row.key.table <= MAX_TABLE && row.data_len() <= MAX_DATA_LEN
}

fn is_in_limits(op: &Op) -> bool
    ensures { IsTrue result → IsInLimits op.now }
{
    match op {
        Op::Read(_) => true,
        Op::Scan(_, _, _) => true,
        Op::Insert(row) => is_row(row),
        Op::Update(row) => is_row(row),
        Op::Delete(key) => key.table <= MAX_TABLE,
    }
}

fn are_in_limits(operations: &[(Op, Answer)]) -> bool
    ensures { IsTrue result
        → AllByRecursion (λ t. IsInLimits t.0) (history_told operations.now) }
{
    for told in operations {
        if !is_in_limits(&told.0) {
            return false;
        }
    }
    true
}

/// The stored commit of these operations, if they are in the limits.
pub fn entry_of(
    alloc: Global,
    id: TxId,
    end: Stamp,
    operations: Vec<(Op, Answer)>,
) -> Result<Option<TaleEntry>, AllocError>
    ensures { IfOk result (λ found. IfSome found (λ x. (x.id ≡ id.0) × (x.end ≡ end.0)
        × (x.history ≡ history_told operations.items))) }
{
    let written = keys_of(alloc, &operations)?;
    if written.len() > MAX_WRITES || !are_in_limits(&operations) {
        return Ok(None);
    }
    Ok(Some(TaleEntry {
        id,
        begin: Stamp(id.0),
        end,
        operations,
        written,
    }))
}
