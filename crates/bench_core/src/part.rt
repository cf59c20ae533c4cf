use anyhow::{Result, bail};

/// A part of what the core keeps of a row, made by itself to see how much memory it takes.
#[derive(Clone, Copy, PartialEq, Eq)]
pub enum Part {
    /// The rows in a list, each with a block of data of its own.
    Rows,
    /// As many rows in a list that share one block.
    Copies,
    /// As many versions, whose rows share one block.
    Versions,
    /// The key index without the links between versions.
    Heads,
    /// The key index.
    Index,
    /// The ordered index, whose places are added in no order.
    Order,
    /// The same, added in their order.
    Rising,
    /// The same, built in one go.
    Built,
    /// The versions of rows with blocks of their own, in both indexes.
    All,
    /// The same, loaded in one go.
    Loaded,
}

pub const PARTS: [Part; 10] = [
    Part::Rows,
    Part::Copies,
    Part::Versions,
    Part::Heads,
    Part::Index,
    Part::Order,
    Part::Rising,
    Part::Built,
    Part::All,
    Part::Loaded,
];

impl Part {
    pub fn name(self) -> &'static str {
        match self {
            Part::Rows => "part_rows",
            Part::Copies => "part_copies",
            Part::Versions => "part_versions",
            Part::Heads => "part_heads",
            Part::Index => "part_index",
            Part::Order => "part_order",
            Part::Rising => "part_rising",
            Part::Built => "part_built",
            Part::All => "part_all",
            Part::Loaded => "part_loaded",
        }
    }

    /// The part with this name.
    pub fn named(name: &str) -> Result<Part> {
        for part in PARTS {
            if part.name() == name {
                return Ok(part);
            }
        }
        bail!("no workload and no part has this name")
    }
}
