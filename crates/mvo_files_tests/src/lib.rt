//! Tests of the disks and of the files, and of what is found out of a disk.
#![tactic(auto)]

#[cfg(test)]
mod equal;
#[cfg(test)]
mod files;
#[cfg(test)]
mod load;
#[cfg(test)]
mod numbers;
