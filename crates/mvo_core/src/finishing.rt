//! How a transaction's words are replaced, one after another.
ghost use Rattle.std.specs.Prelude.{◌≡◌, IsSome, IfOk, IfErr, Some, drop, slice_get, length, nat_lt};
ghost use Rattle.mvo_chain.specs.Slots.{version_at};
ghost use Rattle.mvo_txn.specs.Txns.{state_of};
ghost use Rattle.mvo_representation.specs.WordLists.{number_at_word, names_at, with_word};
ghost use Rattle.mvo_versions.specs.Changes.{IsReworded};
ghost use Rattle.mvo_core.specs.Data.{own_of};
ghost use Rattle.mvo_core.specs.Standing.{words_in};
ghost use Rattle.mvo_core.specs.Finishing.{why_not_finished, IsFinalWord, HasDrawnEnd};
ghost use Rattle.mvo_core.specs.Finishing.{from_own, IsOneReplaced, IsRewordedAt};

use crate::answers::Finishing;
use crate::collecting::count_off;
use crate::event_core::Core;
use crate::kept_transaction::Table;
use mvo_txn::{Located, TxState};
use mvo_types::{Refusal, TxId};
use mvo_versions::Versions;
use mvo_visible::names;
use mvo_word::Word;
use mvo_work::{WordPlace, Writes};

impl Core {
    ghost use Rattle.std.specs.Prelude.{◌≡◌, IfOk};
    ghost use Rattle.mvo_theory.specs.Calls.Call.{Finish};
    ghost use Rattle.mvo_core.specs.Steps.{IsStep, IsFinishing};
    ghost use Rattle.mvo_core.specs.WholeStanding.{IsWholeStep};
    ghost use Rattle.mvo_core.specs.WholeAnswers.{IsFinishingWhole};
    ghost use Rattle.mvo_core.specs.Counting.{HasAsMany};

    /// Replaces one word that names a Committed or Aborted transaction, in the order of writing:
    /// with its end after a commit, with infinity after an abort. The call that replaces the last
    /// one answers Done, and the transaction is over; with none left the first call does. A word
    /// that another took over is passed over. Refused: NoSuchTransaction, NotEnded.
    pub fn finish_one(&mut self, tx: TxId) -> Result<Finishing, Refusal>
        ensures step { IsStep self.old (Finish tx.0) result self.new }
        ensures answer { IfOk result (IsFinishing self.old tx.0) }
        ensures whole { IsWholeStep self.old (Finish tx.0) result self.new }
        ensures whole_answer { IfOk result (IsFinishingWhole self.old tx.0) }
        ensures count { HasAsMany self.old self.new }
    {
        let seat = self.table.seat_of(tx);
        let tx = Located { id: tx, seat };
        let (word, has_words) = final_word(&self.table, tx)?;
        let (replaced, next) = replace_next(
            &mut self.versions,
            &mut self.table,
            tx,
            word,
            has_words,
        );
        count_off(&mut self.waiting, &self.versions, replaced);
        if next.is_some() {
            return Ok(Finishing::More);
        }
        let node = self.table.terminate(tx);
        let (taken, writes) = node.own.into_parts();
        self.spares.keep(writes);
        self.works.forget(tx.id, taken);
        Ok(Finishing::Done)
    }
}

/// What the words of a Committed or Aborted transaction say in the end, and whether words are left
/// on its list. Refused: NoSuchTransaction, NotEnded.
fn final_word(table: &Table, tx: Located) -> Result<(Word, bool), Refusal>
    requires { HasDrawnEnd table.now.clock (state_of table.now tx.id.0) }
    ensures ok { IfOk result (λ r. IsFinalWord (state_of table.now tx.id.0) r.0) }
    ensures words { IfOk result (λ r. r.1 ≡ nat_lt 0 (length (words_in table.now tx.id.0))) }
    ensures err { IfErr result (λ r. why_not_finished (state_of table.now tx.id.0) ≡ Some r) }
{
    // An end is at most the clock, and so a word can hold it.
    let _clock = table.clock();
    let Some(seat) = table.get(tx) else {
        return Err(Refusal::NoSuchTransaction);
    };
    let has_words = seat.kept.own.writes.word_count() > 0;
    match seat.state {
        TxState::Active => Err(Refusal::NotEnded),
        TxState::Preparing(_) => Err(Refusal::NotEnded),
        TxState::Committed(end) => Ok((Word::stamp(end), has_words)),
        TxState::Aborted => Ok((Word::INFINITY, has_words)),
    }
}

/// Replaces the first word of the transaction's list that still names it, if there is one, and
/// takes it off the list, with those that others took over, before it and behind it. Answers which
/// it was, and which is the next. A list without words isn't looked up.
fn replace_next(
    versions: &mut Versions,
    table: &mut Table,
    tx: Located,
    word: Word,
    has_words: bool,
) -> (Option<WordPlace>, Option<WordPlace>)
    requires there { IsSome (own_of table.old tx.id.0) }
    requires words { has_words ≡ nat_lt 0 (length (words_in table.old tx.id.0)) }
    ensures replaced { IsOneReplaced versions.old versions.new table.old table.new tx.id.0 word }
    ensures first { result.0 ≡
        slice_get (from_own versions.old.slots tx.id.0 (words_in table.old tx.id.0)) 0 }
    ensures next { result.1 ≡ slice_get (words_in table.new tx.id.0) 0 }
{
    if !has_words {
        return (None, None);
    }
    match table.get_mut(tx) {
        Some(node) => replace_first(versions, &mut node.own.writes, tx.id, word),
        None => unreachable!(),
    }
}

/// Does so in what is kept of the transaction.
#[inline(always)]
fn replace_first(
    versions: &mut Versions,
    writes: &mut Writes,
    tx: TxId,
    word: Word,
) -> (Option<WordPlace>, Option<WordPlace>)
    ensures first { result.0 ≡ slice_get (from_own versions.old.slots tx.0 writes.old.words) 0 }
    ensures replaced { IsRewordedAt versions.old versions.new result.0 word }
    ensures words { writes.new.words ≡ from_own versions.new.slots tx.0
        (drop 1 (from_own versions.old.slots tx.0 writes.old.words)) }
    ensures next { result.1 ≡ slice_get writes.new.words 0 }
{
    let Some(place) = pass_others(versions, writes, tx) else {
        return (None, None);
    };
    replace(versions, place, word);
    writes.drop_word();
    (Some(place), pass_others(versions, writes, tx))
}

/// Takes off the words that others took over, up to the first that still names the transaction,
/// which it answers.
#[inline(always)]
fn pass_others(versions: &Versions, writes: &mut Writes, tx: TxId) -> Option<WordPlace>
    ensures words { writes.new.words ≡ from_own versions.now.slots tx.0 writes.old.words }
    ensures first { result ≡ slice_get writes.new.words 0 }
{
    while let Some(place) = writes.next_word() {
        if is_own(versions, tx, place) {
            return Some(place);
        }
        writes.drop_word();
    }
    None
}

/// Whether the word still names the transaction.
fn is_own(versions: &Versions, tx: TxId, place: WordPlace) -> bool
    ensures { result ≡ names_at versions.now.slots tx.0 place }
{
    match place {
        WordPlace::Begin(number) => match versions.get(number) {
            Some(version) => names(version.begin, tx),
            None => false,
        },
        WordPlace::End(number) => match versions.get(number) {
            Some(version) => names(version.end, tx),
            None => false,
        },
    }
}

/// Replaces the word.
fn replace(versions: &mut Versions, place: WordPlace, word: Word)
    requires { IsSome (version_at versions.old.slots (number_at_word place)) }
    ensures { IsReworded versions.old versions.new (number_at_word place) (with_word place word) }
{
    match place {
        WordPlace::Begin(number) => versions.set_begin(number, word),
        WordPlace::End(number) => versions.set_end(number, word),
    }
}
