//! The stored commits.

mod checked;
mod entries;
mod many_keys;
mod plain;
mod random;
mod reading;
mod spare;
mod storing;
