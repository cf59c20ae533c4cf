ghost use Rattle.std.specs.Prelude.{◌≡◌, ◌≤◌};
ghost use Rattle.mvo_hash.specs.Home.{folded, hash_of, home_in};

use mvo_types::RowKey;

/// What the hash of a key depends on besides the key.
#[derive(Clone, Copy, Debug)]
pub struct Seeds {
    pub first: u64,
    pub second: u64,
}

const MULTIPLIER: u64 = 0x9e37_79b9_7f4a_7c15;

const START: u64 = 0x243f_6a88_85a3_08d3;

impl Seeds {
    pub fn new(seed: u64) -> Seeds {
        let first = folded_multiply(seed ^ START, MULTIPLIER);
        Seeds {
            first,
            second: folded_multiply(first ^ MULTIPLIER, START) | 1,
        }
    }

    /// The hash of a key.
    pub fn hash(self, key: RowKey) -> u64
        ensures { result ≡ hash_of self.first self.second key }
    {
        folded_multiply(key.key ^ self.first, self.second ^ key.table as u64)
    }
}

/// Where the search for a key with this hash begins among so many homes.
pub fn home(hash: u64, homes: usize) -> usize
    ensures at { result ≡ home_in homes hash }
    ensures within { result ≤ homes }
{
    (hash as u128 * homes as u128 >> 64) as usize
}

fn folded_multiply(a: u64, b: u64) -> u64
    ensures { result ≡ folded a b }
{
    let product = a as u128 * b as u128;
    (product & 0xFFFF_FFFF_FFFF_FFFF) as u64 ^ (product >> 64) as u64
}
