//! What a transaction brings to the front of its keys as it draws its end, or is undone.
ghost use Rattle.std.specs.Prelude.{◌≡◌, ◌≤◌, is_none, length};
ghost use Rattle.mvo_txn.specs.Txns.{state_of};
ghost use Rattle.mvo_chain.specs.Slots.{version_at};
ghost use Rattle.mvo_representation.specs.Words.{ends_of, stamp_in};
ghost use Rattle.mvo_representation.specs.Table.{phases_of};
ghost use Rattle.mvo_representation.specs.Order.{is_put_by};
ghost use Rattle.mvo_representation.specs.WordLists.{number_at_word};
ghost use Rattle.mvo_core.specs.Standing.{words_in};
ghost use Rattle.mvo_core.specs.Collecting.{WaitBehind};
ghost use Rattle.mvo_core.specs.Fronts.{version_passes, comes_at_draw, IsInFrontIf, AreInFront};

use crate::collecting::await_end;
use crate::kept_transaction::Table;
use mvo_chain::VersionNo;
use mvo_collect::Waiting;
use mvo_txn::Located;
use mvo_types::{Stamp, TxId};
use mvo_versions::Versions;
use mvo_visible::{Seen, names, seen_by_others};
use mvo_word::Word;
use mvo_work::{WordPlace, Writes};

/// What the words of the transaction come to as it draws this end, in the order of writing. What it
/// put comes to the front of its key, and so does what it ended whose put has no stamp. What it
/// ended waits behind the others. One that has written nothing isn't looked up.
pub fn draw_words(
    versions: &mut Versions,
    waiting: &mut Waiting,
    table: &Table,
    tx: Located,
    count: usize,
    end: Stamp,
)
    requires count { count ≡ length (words_in table.now tx.id.0) }
    requires room { count ≤ waiting.old.ended_room }
    ensures fronts { AreInFront (comes_at_draw (state_of table.now) tx.id.0)
        versions.old versions.new (words_in table.now tx.id.0) }
    ensures waits { WaitBehind end (words_in table.now tx.id.0) waiting.old waiting.new }
{
    if count == 0 {
        return;
    }
    if let Some(seat) = table.get(tx) {
        draw_all(versions, waiting, table, tx.id, &seat.kept.own.writes, end);
    }
}

/// Does so in what is kept of the transaction.
#[inline(always)]
fn draw_all(
    versions: &mut Versions,
    waiting: &mut Waiting,
    table: &Table,
    tx: TxId,
    writes: &Writes,
    end: Stamp,
)
    requires { length writes.now.words ≤ waiting.old.ended_room }
    ensures fronts { AreInFront (comes_at_draw (state_of table.now) tx.0) versions.old versions.new
        writes.now.words }
    ensures waits { WaitBehind end writes.now.words waiting.old waiting.new }
{
    for place in 0..writes.word_count() {
        if let Some(word) = writes.word_at(place) {
            bring_unstamped(versions, table, tx, number_of(word));
            await_end(waiting, word, end);
        }
    }
}

/// Brings to the front of their keys what the transaction put, in the order of writing.
pub fn bring_puts(versions: &mut Versions, table: &Table, tx: Located)
    ensures { AreInFront (is_put_by tx.id.0) versions.old versions.new
        (words_in table.now tx.id.0) }
{
    if let Some(seat) = table.get(tx) {
        bring_each_put(versions, tx.id, &seat.kept.own.writes);
    }
}

/// Does so in what is kept of the transaction.
fn bring_each_put(versions: &mut Versions, tx: TxId, writes: &Writes)
    ensures { AreInFront (is_put_by tx.0) versions.old versions.new writes.now.words }
{
    for place in 0..writes.word_count() {
        if let Some(word) = writes.word_at(place) {
            bring_put(versions, tx, number_of(word));
        }
    }
}

/// The number of the version that has the word.
pub fn number_of(word: WordPlace) -> VersionNo
    ensures { result ≡ number_at_word word }
{
    match word {
        WordPlace::Begin(number) => number,
        WordPlace::End(number) => number,
    }
}

/// Brings the version to the front of its key, if the transaction put it, or ended it and its put
/// has no stamp.
fn bring_unstamped(versions: &mut Versions, table: &Table, tx: TxId, number: VersionNo)
    ensures { IsInFrontIf (comes_at_draw (state_of table.now) tx.0) versions.old versions.new
        number }
{
    if comes_at_draw(versions, table, tx, number) {
        versions.bring_to_front(number);
    }
}

/// Brings the version to the front of its key, if the transaction put it.
fn bring_put(versions: &mut Versions, tx: TxId, number: VersionNo)
    ensures { IsInFrontIf (is_put_by tx.0) versions.old versions.new number }
{
    if is_put(versions, tx, number) {
        versions.bring_to_front(number);
    }
}

/// Whether the transaction put the version, or ended it and its put has no stamp for others.
fn comes_at_draw(versions: &Versions, table: &Table, tx: TxId, number: VersionNo) -> bool
    ensures { result ≡ version_passes (comes_at_draw (state_of table.now) tx.0)
        (version_at versions.now.slots number) }
{
    match versions.get(number) {
        Some(version) => {
            names(version.begin, tx) || names(version.end, tx) && has_no_stamp(table, version.begin)
        }
        None => false,
    }
}

/// Whether the transaction put the version.
fn is_put(versions: &Versions, tx: TxId, number: VersionNo) -> bool
    ensures { result ≡ version_passes (is_put_by tx.0) (version_at versions.now.slots number) }
{
    match versions.get(number) {
        Some(version) => names(version.begin, tx),
        None => false,
    }
}

/// Whether the word has no stamp for others.
fn has_no_stamp(table: &Table, word: Word) -> bool
    ensures { result ≡ is_none (stamp_in (ends_of (phases_of (state_of table.now))) word) }
{
    match seen_by_others(table, word) {
        Seen::Nothing => true,
        Seen::Settled(_) => false,
        Seen::Speculative(_, _) => false,
    }
}
