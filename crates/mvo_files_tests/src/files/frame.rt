//! File headers and log segments.

mod headers;
mod slices;
mod tests;
