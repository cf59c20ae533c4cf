use mvo_types::{Row, Stamp};
use std::marker::Model;

/// A record of a data file: a row, and the end of the transaction that wrote it.
#[derive(Debug, Drop)]
pub struct DataRecord {
    pub begin: Stamp,
    pub row: Row,
}

impl Model for DataRecord {
    ghost use Rattle.mvo_pair.specs.Data.{EntryData};

    ghost Value = { EntryData };

    ghost view = { λ e. record { begin = e.begin.0; row = e.row } };
}
