ghost use Rattle.std.specs.Prelude.{◌≡◌, IfOk, None, length, map, replicate};
ghost use Rattle.std.specs.List.Sorted.{IsStrictlySortedBy};
ghost use Rattle.std.specs.Option.{option_map};
ghost use Rattle.mvo_types.specs.Keys.{key_cmp};
ghost use Rattle.mvo_types.specs.AnswerData.{answer_data};
ghost use Rattle.mvo_model.specs.History.{write_of, net_write};
ghost use Rattle.mvo_theory.specs.Told.{history_told};
ghost use Rattle.mvo_tale.specs.Stored.{write_as, effects_data};
ghost use Rattle.mvo_tale.specs.Records.{with_newer};

use crate::effect::Effect;
use mvo_types::{Answer, Op, RowKey};
use std::alloc::{AllocError, Global};

/// What the operation wrote: the key, and what it left there.
fn write_by<'a>(op: &'a Op, answer: &Answer) -> Option<(RowKey, Effect<'a>)>
    ensures { option_map write_as result ≡ write_of op.now (answer_data answer.now) }
{
    match (op, answer) {
        (Op::Insert(row), Answer::Inserted) => Some((row.row_key(), Effect::Put(row))),
        (Op::Update(row), Answer::Updated) => Some((row.row_key(), Effect::Put(row))),
        (Op::Delete(key), Answer::Deleted) => Some((*key, Effect::Delete)),
        _ => None,
    }
}

/// No write yet to so many keys.
fn no_writes<'a>(alloc: Global, count: usize) -> Result<Vec<Option<Effect<'a>>>, AllocError>
    ensures { IfOk result (λ lasts. lasts.items ≡ replicate count None) }
{
    vec![in alloc; None; count]
}

/// Puts the write in the place of its key, where that is one of the keys, which rise.
fn note<'a>(
    lasts: &mut Vec<Option<Effect<'a>>>,
    keys: &[RowKey],
    write: Option<(RowKey, Effect<'a>)>,
)
    requires len { length lasts.old.items ≡ length keys.now }
    requires rise { IsStrictlySortedBy key_cmp keys.now }
    ensures { effects_data lasts.new.items
        ≡ with_newer (option_map write_as write.entry) keys.now (effects_data lasts.old.items) }
{
    let Some((key, effect)) = write else {
        return;
    };
    if let Ok(place) = keys.binary_search(&key) {
        lasts[place] = Some(effect);
    }
}

/// The last write to each of the keys, which rise: what it left at the first, at the second, and
/// so on, or nothing where there is none. Each operation takes one search in the keys.
pub fn last_writes<'a>(
    alloc: Global,
    operations: &'a [(Op, Answer)],
    keys: &[RowKey],
) -> Result<Vec<Option<Effect<'a>>>, AllocError>
    requires { IsStrictlySortedBy key_cmp keys.now }
    ensures { IfOk result (λ lasts. effects_data lasts.items
        ≡ map (λ k. net_write k (history_told operations.now)) keys.now) }
{
    let mut lasts = no_writes(alloc, keys.len())?;
    for told in operations {
        let (op, answer) = told;
        note(&mut lasts, keys, write_by(op, answer));
    }
    Ok(lasts)
}
