//! Tests of what no script asks of a core.
mod copies;
mod next;
mod stored;
mod told;

use mvo_core::Core;
use mvo_types::{Refusal, Rows, Stamp};
use std::alloc::Global;
use std::thread::Threads;

/// A core without rows.
fn opened(rt: &(impl Threads + Sync), alloc: Global) -> Result<Core, Refusal> {
    Core::open(rt, alloc, 7, Rows::new(alloc), Stamp(0))
}

/// Lets go of it.
fn end(_core: Core) {}
