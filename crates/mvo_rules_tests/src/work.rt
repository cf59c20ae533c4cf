//! What a transaction has done, and what the core keeps of what it wrote.

mod given;
mod limits;
mod words;
