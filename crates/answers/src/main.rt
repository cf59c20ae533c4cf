//! What is answered past what tests reach: by the opening of images, and, with the word `sizes`, by
//! a core of many rows and transactions behind it.
#![tactic(auto)]

mod images;
mod sizes;

use anyhow::{Result, bail};
use std::env;

fn main(rt: HostRuntime) -> Result<()> {
    let asked = env::args(&rt)?.skip(1).next();
    images::run(&rt, &rt)?;
    match &asked {
        Some(word) if word.as_str() == "sizes" => sizes::run(&rt, rt.alloc()),
        Some(_) => bail!("nothing that is asked has this name"),
        None => Ok(()),
    }
}
