/// Is told how far reading has come.
pub trait ReadProgress {
    /// So many bytes are read, of so many that there were at first.
    fn tell(&mut self, read: u64, all: u64);
}

/// Tells nobody.
#[derive(Clone, Copy, Debug)]
pub struct Silent;

impl ReadProgress for Silent {
    fn tell(&mut self, _read: u64, _all: u64) {}
}
