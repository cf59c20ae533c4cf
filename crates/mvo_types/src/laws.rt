ghost use Rattle.std.specs.Prelude.{◌≡◌, ◌^◌};

use crate::limits::{
    MAX_BODY_LEN, MAX_DATA_LEN, MAX_ENTRIES, MAX_FILE, MAX_PAIR_RECORDS, MAX_PAIRS, MAX_RECORDS,
    MAX_SEGMENT_LEN, MAX_SEGMENTS, MAX_STAMP, MAX_TABLE, MAX_UNFINISHED, MAX_WRITES, RING_GROUPS,
};

/// The laws of the limits: each is the number that the documents give. The call does nothing.
pub fn laws_of_limits()
    ensures stamp { MAX_STAMP ≡ 2 ^ 62 }
    ensures table { MAX_TABLE ≡ 63 }
    ensures data { MAX_DATA_LEN ≡ 4096 }
    ensures unfinished { MAX_UNFINISHED ≡ 1024 }
    ensures writes { MAX_WRITES ≡ 256 }
    ensures entries { MAX_ENTRIES ≡ 4096 }
    ensures records { MAX_RECORDS ≡ 1024 }
    ensures body { MAX_BODY_LEN ≡ 4194304 }
    ensures ring { RING_GROUPS ≡ 64 }
    ensures segment { MAX_SEGMENT_LEN ≡ 67108864 }
    ensures pairs { MAX_PAIRS ≡ 64 }
    ensures segments { MAX_SEGMENTS ≡ 64 }
    ensures pair_records { MAX_PAIR_RECORDS ≡ 4194304 }
    ensures file { MAX_FILE ≡ 1023 }
{}
