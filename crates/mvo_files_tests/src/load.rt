//! The tests of what is found out of a disk.
mod broken;
mod image;
mod mixed;
mod sliced;
mod vectors;
mod written;
