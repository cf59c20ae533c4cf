//! Clients over named pipes: each has a session of the engine, and its lines are answered as they
//! come.

mod answering;
mod client_line;
mod client_pipes;
mod client_work;
mod pipe_folder;

pub use client_pipes::ClientPipes;
pub use client_work::ClientWork;
pub use pipe_folder::{PipeFolder, pipes_in};
