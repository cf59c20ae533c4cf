//! Tests of a store over many files.
#![tactic(auto)]

#[cfg(test)]
mod beside;
#[cfg(test)]
mod bodies;
#[cfg(test)]
mod caller;
#[cfg(test)]
mod calls;
#[cfg(test)]
mod checkpoints;
#[cfg(test)]
mod disks;
#[cfg(test)]
mod equal;
#[cfg(test)]
mod failing;
#[cfg(test)]
mod faults;
#[cfg(test)]
mod images;
#[cfg(test)]
mod lies;
#[cfg(test)]
mod lying_disk;
#[cfg(test)]
mod merges;
#[cfg(test)]
mod numbers;
#[cfg(test)]
mod old;
#[cfg(test)]
mod places;
#[cfg(test)]
mod reading;
#[cfg(test)]
mod refused;
#[cfg(test)]
mod reply;
#[cfg(test)]
mod runs;
#[cfg(test)]
mod segments;
#[cfg(test)]
mod shortening;
#[cfg(test)]
mod slices;
#[cfg(test)]
mod spent;
#[cfg(test)]
mod step;
#[cfg(test)]
mod stores;
#[cfg(test)]
mod tests;
#[cfg(test)]
mod told;
#[cfg(test)]
mod vectors;
#[cfg(test)]
mod wholes;
