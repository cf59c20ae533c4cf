//! Numbers as bytes, the lowest byte first, and reading them from left to right.
#![tactic(auto)]

mod number;

pub use number::{u8_at, u16_at, u32_at, u64_at};
