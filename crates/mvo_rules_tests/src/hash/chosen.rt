//! Keys that were chosen against one seed.
use crate::equal::{holds, same};
use mvo_hash::Heads;
use mvo_types::RowKey;
use std::alloc::{AllocError, Global};
use std::process::Abort;
use std::test::Fail;

// How many keys are chosen, and how many are tried.
const CHOSEN: usize = 50;

const TRIED: u64 = 60_000_000;

fn key(number: u64) -> RowKey {
    RowKey {
        table: 1,
        key: number,
    }
}

// Keys that all meet in one home by seed 0, or in two beside each other: the search for each goes
// over all that were chosen before it.
fn choose(heads: &mut Heads, chosen: &mut Vec<RowKey>) -> Result<(), AllocError> {
    for number in 0..TRIED {
        let key = key(number);
        if heads.steps(key) >= chosen.len() {
            heads.put(key, 0)?;
            chosen.push(key)?;
            if chosen.len() == CHOSEN {
                break;
            }
        }
    }
    Ok(())
}

// How many slots the searches for these keys go over in all, each before it is put.
fn steps_in(heads: &mut Heads, keys: &[RowKey]) -> Result<usize, AllocError> {
    let mut steps = 0usize;
    for key in keys {
        steps = steps.saturating_add(heads.steps(*key));
        heads.put(*key, 0)?;
    }
    Ok(steps)
}

fn steps(alloc: Global, seed: u64, keys: &[RowKey]) -> Result<usize, AllocError> {
    let mut heads = Heads::new(alloc, seed);
    steps_in(&mut heads, keys)
}

// By any seed but 0 they stay below one a key.
fn stay_apart(rt: &impl Abort, alloc: Global, seed: u64, keys: &[RowKey]) -> Result<(), Fail> {
    assert!(rt; steps(alloc, seed, keys)? < CHOSEN, "by seed {seed}");
    Ok(())
}

fn check_chosen(rt: &impl Abort, alloc: Global, keys: &[RowKey]) -> Result<(), Fail> {
    same(rt, &keys.len(), &CHOSEN);
    // By seed 0 the steps rise with the square of the keys: 0, 1, 2 ..
    holds(rt, steps(alloc, 0, keys)? >= CHOSEN * (CHOSEN - 1) / 2);
    for seed in [1, 2, 3, 0x0123_4567_89ab_cdef, u64::MAX] {
        stay_apart(rt, alloc, seed, keys)?;
    }
    Ok(())
}

#[test]
fn keys_chosen_against_seed_0_stay_apart_by_another(rt: HostRuntime) -> Result<(), Fail> {
    let mut keys = Vec::new(rt.alloc());
    choose(&mut Heads::new(rt.alloc(), 0), &mut keys)?;
    check_chosen(&rt, rt.alloc(), keys.as_slice())
}
