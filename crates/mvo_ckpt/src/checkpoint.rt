use mvo_pair::DataRecord;
use mvo_types::RowKey;
use std::marker::Model;

/// What a checkpoint writes.
#[derive(Debug, Drop)]
pub struct Checkpoint {
    /// The records of the new pair's data file, by begin, then by table, and then by key.
    pub records: Vec<DataRecord>,
    /// The keys at which the groups leave no row, whether or not one stood there.
    pub gone: Vec<RowKey>,
    /// What the delta files of older pairs gain, in the order of the pairs.
    pub deltas: Vec<DeltaEntries>,
}

impl Model for Checkpoint {
    ghost use Rattle.mvo_ckpt.specs.Checkpoint.{BuiltCheckpoint};

    ghost Value = { BuiltCheckpoint };

    ghost view = { λ c. record {
      records = c.records.items;
      gone = c.gone.items;
      deltas = c.deltas.items;
    } };
}

/// What the delta file of an older pair gains: one number at least.
#[derive(Debug, Drop)]
pub struct DeltaEntries {
    /// The data file of the pair.
    pub data_file: u16,
    /// The numbers of the records that are no longer live, ascending.
    pub numbers: Vec<u32>,
}

impl Model for DeltaEntries {
    ghost use Rattle.mvo_ckpt.specs.Checkpoint.{DeltaData};

    ghost Value = { DeltaData };

    ghost view = { λ d. record { data_file = d.data_file; numbers = d.numbers.items } };
}
