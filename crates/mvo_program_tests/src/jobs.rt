//! The tests of the queue of jobs, and of scripts as jobs.
mod queue;
mod scripts;
