ghost use Rattle.std.specs.Thread.{IsSync};

use crate::pair_files::PairFiles;
use crate::pair_reader::PairReader;
use crate::part::Part;
use crate::parts::parts_of;
use mvo_types::Refusal;
use std::alloc::Global;
use std::thread::Threads;

/// Reads pairs in threads, each pair beside the others.
pub struct PairsInThreads<'r, R> {
    rt: &'r R,
}

impl<'r, R> Drop for PairsInThreads<'r, R> {
    fn drop(self) {
        let PairsInThreads { rt: _ } = self;
    }
}

impl<'r, R: Threads + Sync> PairsInThreads<'r, R> {
    /// One who starts threads by this handle.
    pub fn new(rt: &'r R) -> PairsInThreads<'r, R> {
        PairsInThreads { rt }
    }
}

impl<'r, R: Threads + Sync> PairReader for PairsInThreads<'r, R> {
    ghost may_read = { IsSync R.row };

    fn parts_of(
        &self,
        alloc: Global,
        upto: u32,
        files: &[PairFiles],
    ) -> Result<Option<Vec<Part>>, Refusal> {
        parts_of(self.rt, alloc, upto, files)
    }
}
