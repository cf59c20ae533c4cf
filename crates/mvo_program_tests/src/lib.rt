//! Tests of scripts that are kept or fail, of jobs of an engine, of texts, and of what stops leave.
#![tactic(auto)]

#[cfg(test)]
mod disks;
#[cfg(test)]
mod equal;
#[cfg(test)]
mod jobs;
#[cfg(test)]
mod script;
#[cfg(test)]
mod stops;
#[cfg(test)]
mod world;
