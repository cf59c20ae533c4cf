//! The lines of scripts, read from their bytes.

mod laws;
mod line;
pub mod line_rest;
mod words;

pub use laws::laws_of_lines;
pub use line::{Line, MAX_LINE_LEN, RowText, SortRange};
