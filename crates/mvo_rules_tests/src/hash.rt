//! The key index.

mod chosen;
mod heads;
mod index;
mod open_table;
