//! Puts the groups of a segment on rows, one at a time.
ghost use Rattle.std.specs.Prelude.{◌≡◌, ◌⊎◌, ◌≤◌, ℕ, List, IfOk, IfErr, Ok, Err, if◌then◌else◌};
ghost use Rattle.mvo_types.specs.declared.refusal.Refusal.TheVariants.{Corrupt, OutOfMemory};
ghost use Rattle.mvo_group.specs.Data.{GroupData};
ghost use Rattle.mvo_frame.specs.Reading.{enough_found};
ghost use Rattle.mvo_frame.specs.Standing.{gate_of};
ghost use Rattle.mvo_types.specs.declared.limits.TheConstants.{MAX_STAMP};
ghost use Rattle.mvo_pair.specs.Answers.{IsOnly};
ghost use Rattle.mvo_recovery.specs.image.Files.{SegmentIs};
ghost use Rattle.mvo_load.specs.Parts.{IsReplayed};

use crate::log_end::LogEnd;
use crate::replay::{add_writes, put_many, put_writes};
use mvo_format::{HEADER_LEN, behind_header};
use mvo_frame::{Kind, MAGIC, next_group};
use mvo_types::{Refusal, Rows, Stamp};
use std::alloc::Global;

/// Whether groups behind which the closed gate stands at this place are enough.
fn are_enough(kind: Kind, gate: usize) -> bool
    ensures { (file : ℕ) (gs : List GroupData) → gate ≡ gate_of gs →
        enough_found file kind gs ≡ (if result then Ok gs else Err (Corrupt file)) }
{
    match kind {
        Kind::Last => true,
        Kind::Sealed => gate > HEADER_LEN,
    }
}

/// Puts the groups of a segment, of a version up to this one, on rows. The first of them follows a
/// mark, and each keeps the limits of the segment's own version. A group is decoded and let go
/// before the next one, so that no memory of it is left between the rows.
///
/// Refused: Corrupt with the file or BadVersion, by the first rule that its bytes break.
/// OutOfMemory may stand in the place of any answer. Refused, it leaves some of the groups there.
pub fn put_segment(
    alloc: Global,
    upto: u32,
    file: u16,
    start: Stamp,
    kind: Kind,
    bytes: &[u8],
    rows: &mut Rows,
) -> Result<LogEnd, Refusal>
    ensures ok { IfOk result (λ end. IsReplayed upto file start.0 kind bytes.now rows.old rows.new
        end.mark.0 end.gate) }
    ensures stamp { start.0 ≤ MAX_STAMP → IfOk result (λ end. end.mark.0 ≤ MAX_STAMP) }
    ensures err { IfErr result (λ e. (e ≡ OutOfMemory) ⊎
        IsOnly (SegmentIs upto file start.0 kind bytes.now) (Err e)) }
{
    let (own, mut rest) = match behind_header(file, MAGIC, upto, bytes) {
        Ok((own, rest)) => (own, rest),
        Err(refusal) => return Err(refusal),
    };
    let mut writes = Vec::new(alloc);
    let mut gate = HEADER_LEN;
    let mut mark = start;
    while let Some((group, later)) = next_group(alloc, own, file, gate, mark, rest)? {
        gate += rest.len() - later.len();
        mark = group.mark();
        rest = later;
        add_writes(&mut writes, group)?;
        writes = put_many(rows, writes)?;
    }
    if !are_enough(kind, gate) {
        return Err(Refusal::Corrupt(file));
    }
    put_writes(rows, writes)?;
    Ok(LogEnd { mark, gate })
}
