//! What waits to be collected, and collecting it.
ghost use Rattle.std.specs.Prelude.{◌≡◌, ◌+◌, ◌-◌, ◌∷◌, [], ◌<◌, ◌≤◌, cond, Some};
ghost use Rattle.mvo_collect.specs.Laws.{with_owed};
ghost use Rattle.mvo_collect.specs.Waiting.{is_by};
ghost use Rattle.mvo_work.specs.declared.word_place.WordPlace.{WordPlace as WordPlaceData};
ghost use Rattle.mvo_core.specs.Collecting.{is_open_end_at, counted_off, WaitBehind};

use crate::bringing::number_of;
use crate::event_core::Core;
use mvo_chain::VersionNo;
use mvo_collect::{Collection, Waiting, collect_one, is_dead};
use mvo_types::{Stamp, TxId};
use mvo_versions::Versions;
use mvo_word::{Held, Word};
use mvo_work::WordPlace;

impl Core {
    ghost use Rattle.std.specs.Prelude.{◌≡◌};
    ghost use Rattle.mvo_core.specs.Collecting.{StandsAsBefore, IsTaken, AreFewer, ShowsSame};
    ghost use Rattle.mvo_core.specs.WholeAnswers.{StandsWholeAsBefore};
    ghost use Rattle.mvo_core.specs.WholeAnswers.{AreFewerWhole, ShowsSameWhole};
    ghost use Rattle.mvo_core.specs.Counting.{HasTakenOne};

    /// Takes one garbage version out of both indexes and its key's chain, if there is one: a
    /// version that nobody has put any more and nobody has ended, or one that was ended up to the
    /// tale's start, and so before each unfinished transaction began. What each transaction is
    /// answered from then on stays. It takes no memory, and constant time on average.
    pub fn collect_one(&mut self) -> Collection
        ensures taken { IsTaken self.old.start self.old.versions result self.new.versions }
        ensures rest { self.new ≡ record self.old { versions = self.new.versions } }
        ensures stands { StandsAsBefore self.old self.new }
        ensures counts { AreFewer self.old result self.new }
        ensures shows { ShowsSame self.old self.new }
        ensures whole { StandsWholeAsBefore self.old self.new }
        ensures whole_counts { AreFewerWhole self.old result self.new }
        ensures whole_shows { ShowsSameWhole self.old self.new }
        ensures count { HasTakenOne self.old result self.new }
    {
        collect_one(&mut self.versions, &mut self.waiting, self.start)
    }
}

/// Whether the End of the version names a transaction. One that a writer may take over was
/// aborted.
pub fn has_open_end(versions: &Versions, number: VersionNo) -> bool
    ensures { result ≡ is_open_end_at versions.now.slots number }
{
    match versions.get(number) {
        Some(version) => names_one(version.end),
        None => false,
    }
}

fn names_one(word: Word) -> bool
    ensures { result ≡ is_by word }
{
    match word.read() {
        Held::At(_) => false,
        Held::By(_) => true,
        Held::Infinity => false,
    }
}

/// Counts the word by which a version was ended, unless it took over one that named a transaction.
pub fn owe_end(waiting: &mut Waiting, is_open: bool)
    requires { 0 < waiting.old.room }
    ensures { waiting.new ≡
        with_owed waiting.old (waiting.old.owed + cond is_open 0 1) waiting.new.room }
{
    if !is_open {
        waiting.owe();
    }
}

/// If the word is the End of a version, that waits behind the others, with this end.
pub fn await_end(waiting: &mut Waiting, word: WordPlace, end: Stamp)
    requires { 0 < waiting.old.ended_room }
    ensures waits { WaitBehind end (word ∷ []) waiting.old waiting.new }
    ensures room { waiting.old.ended_room ≤ waiting.new.ended_room + 1 }
{
    match word {
        WordPlace::Begin(_) => {}
        WordPlace::End(number) => waiting.push_ended(end, number),
    }
}

/// Counts off the word that was replaced, if one was. If its version is dead now, it waits.
pub fn count_off(waiting: &mut Waiting, versions: &Versions, replaced: Option<WordPlace>)
    requires { (place : WordPlaceData) → replaced ≡ Some place → 0 < waiting.old.owed }
    ensures { waiting.new ≡
        counted_off versions.now.slots replaced waiting.old waiting.new.room }
{
    let Some(place) = replaced else {
        return;
    };
    let number = number_of(place);
    if is_dead(versions, number) {
        waiting.bury(number);
    } else {
        waiting.repay();
    }
}
