use crate::renumbering::Renumbering;
use mvo_pair::DataRecord;
use std::marker::Model;

/// What a merge makes of two pairs.
#[derive(Debug, Drop)]
pub struct Merged {
    /// The live records of the left pair and then of the right one, as they stand.
    pub records: Vec<DataRecord>,
    /// Which number each of them had.
    pub renumbering: Renumbering,
}

impl Model for Merged {
    ghost use Rattle.mvo_merge.specs.Merged.{MergedData};

    ghost Value = { MergedData };

    ghost view = { λ m. record { records = m.records.items; renumbering = m.renumbering } };
}
