ghost use Rattle.std.specs.Prelude.{◌≡◌, slice_get};
ghost use Rattle.mvo_collect.specs.Garbage.{is_infinite};
ghost use Rattle.mvo_collect.specs.Collecting.{is_dead_at, is_ended_at, from_dead, from_due};
ghost use Rattle.mvo_collect.specs.Collecting.{due_number, IsCollection};

use crate::collection::Collection;
use crate::waiting::Waiting;
use mvo_chain::VersionNo;
use mvo_types::Stamp;
use mvo_versions::Versions;
use mvo_word::{Held, Word};

/// Takes one garbage version out of both indexes and its chain, if there is one: one that nobody
/// has put any more and nobody has ended, or one whose End is a timestamp up to the start of the
/// tale. What waits and is neither any more is passed over, once for all.
pub fn collect_one(versions: &mut Versions, waiting: &mut Waiting, start: Stamp) -> Collection
    ensures { IsCollection start.0 versions.old waiting.old result versions.new waiting.new }
{
    if let Some(number) = next_dead(versions, waiting) {
        waiting.drop_dead();
        versions.take_out(number);
        return Collection::Collected;
    }
    if let Some(number) = next_due(versions, waiting, start) {
        waiting.drop_ended();
        versions.take_out(number);
        return Collection::Collected;
    }
    Collection::Nothing
}

/// The first version that waits among the dead and is dead. Those before it go.
fn next_dead(versions: &Versions, waiting: &mut Waiting) -> Option<VersionNo>
    ensures passed { waiting.new ≡ record waiting.old {
      dead = from_dead versions.now.slots waiting.old.dead;
      room = waiting.new.room;
    } }
    ensures first { result ≡ slice_get waiting.new.dead 0 }
{
    while let Some(number) = waiting.next_dead() {
        if is_dead(versions, number) {
            return Some(number);
        }
        waiting.drop_dead();
    }
    None
}

/// The first version that waits with an end up to the start, and has a timestamp up to there as its
/// End. Those before it go.
fn next_due(versions: &Versions, waiting: &mut Waiting, start: Stamp) -> Option<VersionNo>
    ensures passed { waiting.new ≡ record waiting.old {
      ended = from_due start.0 versions.now.slots waiting.old.ended;
      ended_room = waiting.new.ended_room;
    } }
    ensures first { result ≡ due_number start.0 waiting.new.ended }
{
    while let Some(ended) = waiting.next_ended() {
        if ended.end.0 > start.0 {
            return None;
        }
        if is_ended(versions, ended.number, start) {
            return Some(ended.number);
        }
        waiting.drop_ended();
    }
    None
}

/// Whether nobody has put the version any more, and nobody has ended it.
pub fn is_dead(versions: &Versions, number: VersionNo) -> bool
    ensures { result ≡ is_dead_at versions.now.slots number }
{
    match versions.get(number) {
        Some(version) => is_infinite(version.begin) && is_infinite(version.end),
        None => false,
    }
}

/// Whether the End of the version is a timestamp up to the start.
fn is_ended(versions: &Versions, number: VersionNo, start: Stamp) -> bool
    ensures { result ≡ is_ended_at start.0 versions.now.slots number }
{
    match versions.get(number) {
        Some(version) => match version.end.read() {
            Held::At(end) => end.0 <= start.0,
            Held::By(_) => false,
            Held::Infinity => false,
        },
        None => false,
    }
}

fn is_infinite(word: Word) -> bool
    ensures { result ≡ is_infinite word }
{
    match word.read() {
        Held::At(_) => false,
        Held::By(_) => false,
        Held::Infinity => true,
    }
}
