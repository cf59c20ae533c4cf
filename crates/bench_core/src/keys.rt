use crate::zipf::Zipf;
use anyhow::Result;
use std::alloc::Global;

/// The keys come again behind so many.
const MOST: u64 = 1 << 20;

/// The number of an index, well mixed.
pub fn mixed(index: u64) -> u64 {
    let a = index.wrapping_mul(0x9e37_79b9_7f4a_7c15);
    let b = a ^ (a >> 32);
    let c = b.wrapping_mul(0xd6e8_feb8_6659_fd93);
    c ^ (c >> 32)
}

/// Keys in the order in which a workload takes them. They are drawn ahead, so that drawing takes
/// no time of the workload.
pub struct Keys {
    keys: Vec<u64>,
}

impl Drop for Keys {
    fn drop(self) {
        let Keys { keys: _ } = self;
    }
}

impl Keys {
    /// So many keys, each of the rows as often as any other.
    pub fn uniform(alloc: Global, rows: u64, seed: u64, count: u64) -> Result<Keys> {
        let first = seed.wrapping_mul(77_777_777);
        let mut keys = Vec::new(alloc);
        for at in 0..count.min(MOST) {
            let index = mixed(first.wrapping_add(at));
            keys.push(index.checked_rem(rows).unwrap_or(0))?;
        }
        Ok(Keys { keys })
    }

    /// So many keys, few of them often. Which ones is scattered over the rows.
    pub fn zipf(alloc: Global, rows: u64, seed: u64, count: u64) -> Result<Keys> {
        let first = seed.wrapping_mul(999_983);
        let zipf = Zipf::new(rows);
        let mut keys = Vec::new(alloc);
        for at in 0..count.min(MOST) {
            let rank = zipf.rank(mixed(first.wrapping_add(at)) >> 11);
            keys.push(mixed(rank).checked_rem(rows).unwrap_or(0))?;
        }
        Ok(Keys { keys })
    }

    /// The key with an index.
    pub fn at(&self, index: u64) -> u64 {
        let place = (index % MOST) as usize;
        self.keys.get(place).copied().unwrap_or(0)
    }
}
