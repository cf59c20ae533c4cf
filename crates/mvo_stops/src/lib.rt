//! Stops and faults everywhere: what a script leaves where the power goes, or the disk fails, at
//! any of its calls of the device, and whether that is what was promised.
#![tactic(auto)]

mod base;
mod check;
mod commit;
mod counts;
mod error;
mod explain;
mod failed;
mod fill;
mod history;
mod image;
mod judge;
mod lines;
mod look;
mod look_end;
mod loose;
mod moment;
mod opening;
mod recorded;
mod replay;
mod report;
mod run;
mod script_start;
mod step;
mod stops;
mod watch;
mod when;
mod which;
mod wrong;

pub use counts::Counts;
pub use error::StopsError;
pub use explain::explain_call;
pub use failed::Failed;
pub use lines::lines_of;
pub use look::Look;
pub use recorded::Recorded;
pub use report::Report;
pub use script_start::ScriptStart;
pub use step::line_of;
pub use stops::check_stops;
pub use watch::{Quiet, Watch};
pub use when::When;
pub use which::Which;
pub use wrong::Wrong;
