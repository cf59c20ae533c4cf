use std::marker::Brand;
use std::sync::ledger::Ledger;

/// So many sessions there may be of one engine at a time: each has one part of the ledger.
pub const MAX_SESSIONS: u32 = 1_048_576;

/// The parts of the ledger. One stays under the lock of the core: it has what sessions counted that
/// were retired.
pub const PARTS: u32 = MAX_SESSIONS + 1;

/// Names one run of an engine: what it was opened over, its marks and its ring, a
/// ledger of `PARTS` parts, and the receipt that the ledger counts, which may be any: no
/// code knows which. The values under the locks and the sessions agree on it.
pub trait Run: Ledger {
    ghost use Rattle.mvo_engine.specs.run.Opening.{Opening};
    ghost use Rattle.atomic_table.specs.Seated.{TableId};
    ghost use Rattle.mvo_engine.specs.run.Rings.{RingName};
    ghost use Rattle.mvo_engine.specs.run.Watching.{Watched};

    ghost opening: { Opening };

    ghost marks: { TableId };

    ghost ring: { RingName };

    ghost watched: { Watched };
}

impl Run for Brand {
    ghost use Rattle.mvo_engine.specs.run.Rings.{no_marks, no_ring};
    ghost use Rattle.mvo_engine.specs.run.Opening.{no_opening};
    ghost use Rattle.mvo_engine.specs.run.Watching.{nothing_watched};

    ghost opening = { no_opening };

    ghost marks = { no_marks };

    ghost ring = { no_ring };

    ghost watched = { nothing_watched };
}
