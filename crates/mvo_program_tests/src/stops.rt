//! Tests of what is found of stops and faults.
mod failing;
mod forgotten;
mod kept;
mod looked_at;
mod moments;
mod upgrades;
