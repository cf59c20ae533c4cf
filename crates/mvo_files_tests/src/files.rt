//! Tests of the disks, the files and what is written in them.
mod bodies;
mod changes;
mod ckpt;
mod disk;
mod frame;
mod manifests;
mod merge;
mod pair;
