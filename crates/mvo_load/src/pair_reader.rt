ghost use Rattle.std.specs.Prelude.{◌≡◌, IfOk, IfErr, IfSome};
ghost use Rattle.std.specs.List.{AllZip};
ghost use Rattle.mvo_load.specs.Files.{IsPart};

use crate::pair_files::PairFiles;
use crate::part::Part;
use mvo_types::Refusal;
use std::alloc::Global;

/// Who reads the records of pairs: threads, or the calling thread alone. Both read the same.
pub trait PairReader {
    /// What it takes: a handle that threads may share.
    ghost may_read: { Type 0 };

    /// The part of each pair, or nothing where a pair breaks a rule of its own. Refused with
    /// OutOfMemory alone.
    fn parts_of(
        &self,
        alloc: Global,
        upto: u32,
        files: &[PairFiles],
    ) -> Result<Option<Vec<Part>>, Refusal>
        requires { may_read }
        ensures parts { IfOk result (λ found. IfSome found (λ parts.
            AllZip (IsPart upto) files.now parts.items)) }
        ensures stopped { IfErr result (λ e. e ≡ Refusal.OutOfMemory) };
}
