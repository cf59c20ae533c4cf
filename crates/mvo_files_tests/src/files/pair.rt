//! Data files and delta files.

mod late;
mod plain;
mod reading;
mod slices;
mod spelling;
mod vectors;
mod writing;
