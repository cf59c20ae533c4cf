use crate::pair_files::PairFiles;
use crate::pair_reader::PairReader;
use crate::part::Part;
use crate::turns::parts_in_turn;
use mvo_types::Refusal;
use std::alloc::Global;

/// Reads pairs in the calling thread, one after another.
#[derive(Clone, Copy, Debug)]
pub struct PairsInTurn;

impl PairReader for PairsInTurn {
    ghost may_read = { Unit {0} };

    fn parts_of(
        &self,
        alloc: Global,
        upto: u32,
        files: &[PairFiles],
    ) -> Result<Option<Vec<Part>>, Refusal> {
        parts_in_turn(alloc, upto, files)
    }
}
