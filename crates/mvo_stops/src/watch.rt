/// Who is told how far a check has come.
pub trait Watch {
    /// So many of all calls are done, and so many images were looked at.
    fn tell(&mut self, done: u64, all: u64, images: u64);
}

/// Nobody.
#[derive(Clone, Copy, Debug)]
pub struct Quiet;

impl Watch for Quiet {
    fn tell(&mut self, _done: u64, _all: u64, _images: u64) {}
}
