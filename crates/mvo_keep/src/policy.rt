/// From where on something is due.
#[derive(Clone, Copy, Debug, PartialEq, Eq)]
pub struct Policy {
    /// With as many pairs a merge comes before a checkpoint.
    pub many_pairs: usize,
    /// A last segment of so many bytes is full.
    pub full_segment: u64,
    /// Two pairs are merged where at most so many records are live in both together.
    pub most_live: u64,
    /// Two pairs are merged for their dead records where there are as many.
    pub many_dead: u64,
    /// How many versions are collected in one turn, at most.
    pub collected: u64,
    /// So many collections come in a row, at most, where something is due of the files.
    pub in_a_row: u64,
}

impl Policy {
    ghost use Rattle.std.specs.Prelude.{◌≡◌};
    ghost use Rattle.mvo_keep.specs.Due.{standard_policy};

    /// The one that serves: 48 pairs, segments of 16 MiB, 4,194,304 live records, 65,536 dead ones,
    /// 1,024 versions, 16 collections in a row.
    pub fn standard() -> Policy
        ensures { result ≡ standard_policy }
    {
        Policy {
            many_pairs: 48,
            full_segment: 16_777_216,
            most_live: 4_194_304,
            many_dead: 65_536,
            collected: 1_024,
            in_a_row: 16,
        }
    }
}
