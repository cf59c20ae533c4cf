//! Many reads of a session under one hold of the lock of the core.

ghost use Rattle.std.specs.Prelude.{◌≡◌, [], ◌++◌, IfOk, OnOk, map};
ghost use Rattle.mvo_theory.specs.Told.{history_told};
ghost use Rattle.mvo_engine.specs.Reads.{AreCoreAnswers, AreFinding, AreReadUpTo, row_found};

use super::Session;
use crate::gate::Gate;
use crate::locked_core::LockedCore;
use crate::run::{Run, Told};
use mvo_disk::Disk;
use mvo_types::{Answer, Op, Refusal, Row, RowKey, TxId};
use std::alloc::AllocError;
use std::sync::Wait;

/// So many keys are read at most at once.
const READ_AT_ONCE: usize = 64;

impl<'e, L: Run, D: Disk, G: Gate + Drop> Session<'e, L, D, G> {
    ghost use Rattle.std.specs.Prelude.{◌≡◌, IfOk, IfErr};
    ghost use Rattle.mvo_engine.specs.Reads.{HasReadAll, HasNotReadAll};

    /// The rows at up to 64 keys, each where one is shown, in the order of the keys. They are read
    /// one after another, as by `get`, while the lock of the core is held once: where many threads
    /// read, the lock changes hands less often.
    ///
    /// Refused: NoSuchTransaction without a transaction, and where it was rolled back meanwhile
    /// (Ended, where that comes in between); TooManyReads for more keys, which changes nothing; as
    /// the first of the reads that is refused, behind which those before it count; and OutOfMemory,
    /// which leaves all as it was, or rolls the transaction back. A failure ends the transaction.
    pub fn read_all<R: Wait>(
        &mut self,
        rt: &R,
        keys: &[RowKey],
    ) -> Result<Vec<Option<Row>>, Refusal>
        ensures ok { IfOk result (λ rows.
            HasReadAll L.opening self.old keys.now rows.items self.new) }
        ensures err { IfErr result (λ e. HasNotReadAll L.opening self.old keys.now e self.new) }
    {
        let Some(tx) = self.tx else {
            return Err(Refusal::NoSuchTransaction);
        };
        if keys.len() > READ_AT_ONCE {
            return Err(Refusal::TooManyReads);
        }
        let alloc = self.receipts.allocator();
        let mut rows = Vec::with_capacity(alloc, keys.len())?;
        let mut reads = Vec::with_capacity(alloc, keys.len())?;
        let Ok(stop) = read_each(&mut self.enter(rt), tx, keys, &mut reads) else {
            self.leave(rt);
            return Err(Refusal::OutOfMemory);
        };
        let Ok(()) = keep_each(&mut self.told, reads, &mut rows) else {
            self.leave(rt);
            return Err(Refusal::OutOfMemory);
        };
        match stop {
            None => Ok(rows),
            Some(refusal) => {
                self.end_by(rt, tx, refusal);
                Err(refusal)
            }
        }
    }
}

/// Reads at the keys, one after another, up to the first that is refused, which it answers, and
/// puts each with what it was answered behind those before it. Where memory for that is refused,
/// the last one isn't among them.
fn read_each<L: Run>(
    core: &mut LockedCore<L>,
    tx: TxId,
    keys: &[RowKey],
    reads: &mut Vec<(Op, Answer)>,
) -> Result<Option<Refusal>, AllocError>
    requires none { reads.old.items ≡ [] }
    ensures answered { AreCoreAnswers L.opening tx.0 reads.new.items }
    ensures finding { AreFinding reads.new.items }
    ensures upto { IfOk result (AreReadUpTo L.opening tx.0 keys.now reads.new.items) }
{
    for key in keys {
        match core.operate(tx, Op::Read(*key)) {
            Ok(answer) => reads.push((Op::Read(*key), answer))?,
            Err(refusal) => return Ok(Some(refusal)),
        }
    }
    Ok(None)
}

/// Adds the reads to what the transaction was told, each with its answer, and puts the rows that
/// they found behind those that are there.
fn keep_each(
    told: &mut Told,
    reads: Vec<(Op, Answer)>,
    rows: &mut Vec<Option<Row>>,
) -> Result<(), AllocError>
    requires none { rows.old.items ≡ [] }
    ensures told { OnOk result (told.new ≡ told.old ++ history_told reads.items) }
    ensures rows { OnOk result (rows.new.items ≡ map (λ r. row_found r.1) reads.items) }
{
    for (op, answer) in reads {
        told.keep(op, &answer)?;
        rows.push(row_in(answer))?;
    }
    Ok(())
}

/// The row that was found, if one was.
fn row_in(answer: Answer) -> Option<Row>
    ensures { result ≡ row_found answer }
{
    match answer {
        Answer::Found(row) => row,
        _ => None,
    }
}
