use mvo_types::{Answer, Op, RowKey, Stamp, TxId};
use std::marker::Model;

/// A stored commit: the transaction, its begin and end timestamps, and its operations with their
/// answers. Contracts see its id, its end and its history. The begin is the id, and of a read-only
/// one so is the end; each row that was put, and each key that was deleted, is within the limits of
/// tables and of data; and at most 256 keys are written.
#[derive(Drop)]
pub struct TaleEntry {
    pub id: TxId,
    pub begin: Stamp,
    pub end: Stamp,
    pub operations: Vec<(Op, Answer)>,
    /// The keys that it wrote, in the order of the first write to each, without repeats.
    pub written: Vec<RowKey>,
}

impl Model for TaleEntry {
    ghost use Rattle.std.specs.Prelude.{◌≡◌};
    ghost use Rattle.mvo_theory.specs.Entries.{written_keys};
    ghost use Rattle.mvo_theory.specs.Told.{history_told};
    ghost use Rattle.mvo_tale.specs.Stored.{StoredCommit};
    ghost use Rattle.mvo_theory.specs.Limits.{AreLimited};

    ghost Value = { StoredCommit };

    ghost view = { λ x. record {
      id = x.id.0;
      end = x.end.0;
      history = history_told x.operations.items;
    } };

    ghost invariant = { λ x. let history = history_told x.operations.items in
        (x.begin.0 ≡ x.id.0) × (x.written.items ≡ written_keys history) × AreLimited history };
}

impl TaleEntry {
    ghost use Rattle.std.specs.Prelude.{◌≡◌, nat_lt};
    ghost use Rattle.mvo_theory.specs.Groups.{is_writing};
    ghost use Rattle.mvo_tale.specs.Stored.{stored_commit_of};

    /// Whether it wrote a key.
    pub fn has_written(&self) -> bool
        ensures { result ≡ is_writing (stored_commit_of self.now) }
    {
        !self.written.is_empty()
    }

    /// Whether it ends above the mark.
    pub(crate) fn is_above(&self, mark: Stamp) -> bool
        ensures { result ≡ nat_lt mark.0 self.now.end }
    {
        mark.0 < self.end.0
    }
}
