ghost use Rattle.std.specs.Prelude.{◌≡◌, ◌<◌, [], OnOk, OnErr, IfOk, length, replicate};
ghost use Rattle.mvo_hash.specs.Home.{shard_of, shard_count};
ghost use Rattle.mvo_hash.specs.Shards.{heads_of, least_room, IsSharded, AreMoved};
ghost use Rattle.mvo_hash.specs.Table.{no_keys};

use crate::open_table::OpenTable;
use crate::seeds::Seeds;
use std::alloc::{AllocError, Global};

/// How many tables the keys are shared out among.
pub const SHARDS: usize = 256;

/// The table of the keys with this hash. A home within it goes by the high bits.
pub fn shard_of(hash: u64) -> usize
    ensures at { result ≡ shard_of hash }
    ensures within { result < shard_count }
{
    (hash % SHARDS as u64) as usize
}

/// The room of the table that has the least.
pub fn least_room(shards: &[OpenTable]) -> usize
    ensures { result ≡ least_room shards.now }
{
    let Some(first) = shards.first() else {
        return 0;
    };
    let mut least = first.room();
    for shard in shards {
        least = least.min(shard.room());
    }
    least
}

fn empty_shards(alloc: Global, seeds: Seeds) -> Result<Vec<OpenTable>, AllocError>
    ensures { IfOk result (λ v. v.items ≡ replicate shard_count (no_keys seeds 0)) }
{
    let mut shards = Vec::with_capacity(alloc, SHARDS)?;
    for _ in 0..SHARDS {
        shards.push(OpenTable::with_seeds(alloc, seeds))?;
    }
    Ok(shards)
}

/// Makes the tables, where there are none yet.
pub fn make_shards(shards: &mut Vec<OpenTable>, seeds: Seeds) -> Result<(), AllocError>
    requires { IsSharded seeds shards.old.items }
    ensures made { OnOk result (length shards.new.items ≡ shard_count) }
    ensures sharded { IsSharded seeds shards.new.items }
    ensures same { heads_of seeds shards.new.items ≡ heads_of seeds shards.old.items }
    ensures none { OnErr result (shards.old.items ≡ []) }
{
    if shards.is_empty() {
        *shards = empty_shards(*shards.allocator(), seeds)?;
    }
    Ok(())
}

/// Other tables that hold the same, with room in each for so many more keys.
pub fn moved(alloc: Global, shards: &[OpenTable], keys: usize) -> Result<Vec<OpenTable>, AllocError>
    ensures { IfOk result (λ v. AreMoved shards.now keys v.items) }
{
    let mut larger = Vec::with_capacity(alloc, shards.len())?;
    for shard in shards {
        larger.push(shard.moved(keys)?)?;
    }
    Ok(larger)
}
