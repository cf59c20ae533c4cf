//! The disk in memory and the folder.

mod faults;
mod folders;
mod guarded;
mod record;
mod stops;
