//! Scripts: their lines, the replies to these, and the run of a script from a reader to a writer.
#![tactic(auto)]

mod bound;
mod driver;
mod events;
mod flush;
mod line;
mod names;
mod reply;
mod script;
mod upkeep;

pub use driver::Driver;
pub use line::{Line, MAX_LINE_LEN, RowText, SortRange, laws_of_lines};
pub use reply::LineReply;
pub use script::{ScriptError, read_line, run_kept_over, run_over};
