//! Jobs over a store: each is a script that a session of the engine runs, many at once.

mod ended;
mod lines;
mod replies;
mod running;
mod session_work;

pub use lines::Lines;
pub use running::{WorkError, flushed, run_kept, work_over};
