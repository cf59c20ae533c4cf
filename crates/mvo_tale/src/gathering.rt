ghost use Rattle.std.specs.Prelude.{◌≡◌, ◌+◌, ◌++◌, ◌∷◌, true, MatchBool, IfOk, OnOk, OnErr, [], length};
ghost use Rattle.mvo_theory.specs.Groups.{is_writing};
ghost use Rattle.mvo_tale.specs.Stored.{stored_commit_of};
ghost use Rattle.mvo_tale.specs.Walk.{AreFitting, HasOneRecordMore, IsTooMuch, end_behind};

use crate::commit_record::record_of;
use crate::next_records::NextRecords;
use crate::tale_entry::TaleEntry;
use mvo_group::{BODY_HEADER_LEN, Record};
use mvo_types::{MAX_BODY_LEN, MAX_RECORDS, Stamp};
use std::alloc::{AllocError, Global};
use std::marker::Model;

// So many records fit into the memory that is taken at first: to grow the list costs more.
const FIRST: usize = 16;

/// The records of a group, so far. Contracts see them.
#[derive(Drop)]
pub struct Gathering {
    records: Vec<Record>,
    /// How many bytes the body of a group with them has.
    len: usize,
}

impl Model for Gathering {
    ghost use Rattle.std.specs.Prelude.{◌≡◌, ◌+◌, List, sum_by};
    ghost use Rattle.mvo_group.specs.declared.lengths.TheConstants.{BODY_HEADER_LEN};
    ghost use Rattle.mvo_group.specs.Data.{RecordData};
    ghost use Rattle.mvo_group.specs.Rules.{record_len};
    ghost use Rattle.mvo_tale.specs.Walk.{AreFitting};

    ghost Value = { List RecordData };

    ghost view = { λ g. g.records.items };

    ghost invariant = { λ g. AreFitting g.records.items
        × (g.len ≡ BODY_HEADER_LEN + sum_by record_len g.records.items) };
}

impl Gathering {
    /// No records. It takes no memory.
    pub fn new(alloc: Global) -> Gathering
        ensures { result ≡ [] }
    {
        Gathering {
            records: Vec::new(alloc),
            len: BODY_HEADER_LEN,
        }
    }

    /// Adds the record of a commit that wrote, where it fits. If not, it answers false.
    pub fn add(&mut self, alloc: Global, entry: &TaleEntry) -> Result<bool, AllocError>
        requires { is_writing (stored_commit_of entry.now) ≡ true }
        ensures { IfOk result (λ added. MatchBool added
            (HasOneRecordMore (stored_commit_of entry.now) self.old self.new)
            ((self.new ≡ self.old) × IsTooMuch (stored_commit_of entry.now) self.old)) }
    {
        if self.records.len() >= MAX_RECORDS {
            return Ok(false);
        }
        let record = record_of(alloc, entry)?;
        let len = self.len + record.encoded_len();
        if len > MAX_BODY_LEN {
            return Ok(false);
        }
        push(&mut self.records, record)?;
        self.len = len;
        Ok(true)
    }

    /// These records up to the mark.
    pub fn up_to(self, mark: Stamp, next: usize) -> NextRecords
        ensures records { result.records.items ≡ self }
        ensures fitting { AreFitting self }
        ensures mark { result.mark ≡ mark }
        ensures next { result.next ≡ next }
    {
        let Gathering { records, .. } = self;
        NextRecords {
            records,
            mark,
            next,
        }
    }

    /// These records up to the end of the last one, or up to prev where there are none.
    pub fn up_to_last(self, prev: Stamp, next: usize) -> NextRecords
        ensures records { result.records.items ≡ self }
        ensures fitting { AreFitting self }
        ensures mark { result.mark.0 ≡ end_behind prev.0 self }
        ensures next { result.next ≡ next }
    {
        let mark = last_end(&self.records, prev);
        self.up_to(mark, next)
    }
}

/// Adds a record. The first one takes memory for several.
fn push(records: &mut Vec<Record>, next: Record) -> Result<(), AllocError>
    ensures items { OnOk result (records.new.items ≡ records.old.items ++ next ∷ []) }
    ensures len { OnOk result (length records.new.items ≡ length records.old.items + 1) }
    ensures err { OnErr result (records.new.items ≡ records.old.items) }
{
    if records.capacity() == 0 {
        records.reserve_exact(FIRST)?;
    }
    records.push(next)?;
    Ok(())
}

/// The end of the last record, or prev where there are none.
fn last_end(records: &[Record], prev: Stamp) -> Stamp
    ensures { result.0 ≡ end_behind prev.0 records.now }
{
    let mut last = prev;
    for commit in records {
        last = end_of(commit);
    }
    last
}

fn end_of(commit: &Record) -> Stamp
    ensures { result.0 ≡ commit.now.end }
{
    commit.end
}
