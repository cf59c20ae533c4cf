//! Eight threads move money between a hundred accounts, while another makes checkpoints, merges
//! them, trims and collects, and a third one adds up all accounts again and again. No money is lost
//! or made, each report finds all of it, it is durable at the end, and what nobody can ask for any
//! more is gone from memory and from the log. Then four threads order from a small stock, and
//! nothing is sold that isn't there.
#![tactic(auto)]

mod accounts;
mod orders;
mod reports;
mod transfers;
mod upkeep;

use accounts::{Told, formatted, on_disk, total_on_disk};
use anyhow::bail;
use orders::sell_out;
use std::io;
use std::random::RandomSource;

fn main(rt: HostRuntime) -> Result<(), anyhow::Error> {
    let alloc = rt.alloc();
    let disk = formatted(alloc)?;
    let (told, disk) = match on_disk(&rt, alloc, draw_seed(&rt)?, disk) {
        Ok(told) => told,
        Err(refusal) => bail!("the accounts are left: {refusal}"),
    };
    tell(&rt, &told)?;
    match total_on_disk(&rt, alloc, draw_seed(&rt)?, disk) {
        Ok(total) => println!(rt; "total {total} on the disk")?,
        Err(refusal) => bail!("the disk isn't opened: {refusal}"),
    }
    sell_out(&rt, alloc, draw_seed(&rt)?, formatted(alloc)?)
}

fn tell(rt: &impl Print, told: &Told) -> io::Result<()> {
    println!(rt; "{} transfers", told.transfers)?;
    println!(rt; "total {}", told.total)?;
    match told.report {
        Some(report) => println!(rt; "each report adds up {report}")?,
        None => println!(rt; "two reports differ")?,
    }
    println!(rt;
        "{}",
        if told.durable {
            "all durable"
        } else {
            "not all durable"
        }
    )?;
    println!(rt;
        "{}",
        if told.let_go {
            "what is over is let go"
        } else {
            "not all that is over is let go"
        }
    )?;
    println!(rt;
        "{}",
        if told.receipts {
            "each stored commit has its receipt"
        } else {
            "not each stored commit has its receipt"
        }
    )?;
    Ok(())
}

/// Who chooses the keys of rows must not know the seed of the index.
fn draw_seed(rt: &impl RandomSource) -> Result<u64, anyhow::Error> {
    let mut bytes = [0; 8];
    rt.fill_bytes(&mut bytes)?;
    Ok(u64::from_le_bytes(bytes))
}
