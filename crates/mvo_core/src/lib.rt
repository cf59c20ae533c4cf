//! The event core: optimistic transactions over versions of rows in memory.
#![tactic(auto)]

mod answers;
mod bringing;
mod closing;
mod collecting;
mod depending;
mod ending;
mod equal;
mod event_core;
mod finishing;
mod holding;
mod kept_transaction;
mod next_check;
mod operating;
mod operation;
mod others;
mod preparing;
mod readiness;
mod refusing;
mod scanning;
mod spares;
mod trimming;
mod unfinished;
mod whole_laws;

pub use answers::{Closed, Finishing, Settlement, Validation};
pub use event_core::Core;
pub use mvo_collect::Collection;
pub use mvo_tale::Tale;
pub use mvo_versions::{IndexMaker, IndexesInThreads, IndexesInTurn};
pub use operation::copy_of;
pub use whole_laws::laws_of_whole_steps;
