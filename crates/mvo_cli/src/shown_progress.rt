use mvo_disk::ReadProgress;

/// How many bytes are read between two lines of progress.
const STEP_LEN: u64 = 16_777_216;

/// Shows on standard error, where that is a terminal, how far the first reading of all files has
/// come.
#[derive(Drop)]
pub struct ShownProgress<R: Eprint + Drop> {
    rt: R,
    // Whether there is anything left to show.
    is_on: bool,
    // How many bytes were read at the last word.
    last: u64,
}

impl<R: Eprint + Drop> ShownProgress<R> {
    /// Nothing is read yet.
    pub fn new(rt: R, is_terminal: bool) -> ShownProgress<R> {
        ShownProgress {
            rt,
            is_on: is_terminal,
            last: 0,
        }
    }
}

impl<R: Eprint + Drop> ReadProgress for ShownProgress<R> {
    fn tell(&mut self, read: u64, all: u64) {
        let is_due = read >= all || read.saturating_sub(self.last) >= STEP_LEN;
        if !self.is_on || !is_due {
            return;
        }
        self.last = read;
        self.is_on = read < all;
        let end = if self.is_on { "" } else { "\n" };
        let _ = eprint!(&self.rt; "\rread {read} of {all} bytes{end}");
    }
}
