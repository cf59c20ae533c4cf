use mvo_types::RowKey;

/// Where a row stands in the order of sorts: its table, its sort, its key. Places compare by table,
/// then by sort, then by key.
#[derive(Clone, Copy, Debug, PartialEq, Eq, PartialOrd, Ord, Hash)]
pub struct SortPlace {
    pub table: u8,
    pub sort: u64,
    pub key: u64,
}

impl SortPlace {
    ghost use Rattle.std.specs.Prelude.{◌≡◌};

    /// Where the row of this key and this sort stands.
    pub fn new(key: RowKey, sort: u64) -> SortPlace
        ensures { result ≡ record { table = key.table; sort = sort; key = key.key } }
    {
        SortPlace {
            table: key.table,
            sort,
            key: key.key,
        }
    }

    /// The key of the row that stands there.
    pub fn row_key(self) -> RowKey
        ensures { result ≡ record { table = self.table; key = self.key } }
    {
        RowKey {
            table: self.table,
            key: self.key,
        }
    }
}
