//! The marks that threads share.

mod stores;
mod tests;
