//! The program's command line, and its run on standard input and standard output.
#![tactic(auto)]

mod asked;
mod asked_run;
mod asked_serve;
mod asked_work;
mod clients;
mod dump;
mod fault;
mod folder;
mod folder_stats;
mod folders;
mod jobs;
mod keeping;
mod listing;
mod program;
mod script_file;
mod seed;
mod segment_stats;
mod serve;
mod serve_task;
mod shown_jobs;
mod shown_progress;
mod stops;
mod stops_words;
mod task;
mod told_refusal;
mod work;
mod work_task;
mod workers;

pub use asked::command;
pub use fault::Fault;
pub use folders::Folders;
pub use jobs::{WorkError, work_over};
pub use program::run_program;
pub use serve_task::ServeTask;
pub use task::Task;
pub use work_task::WorkTask;
pub use workers::Workers;
