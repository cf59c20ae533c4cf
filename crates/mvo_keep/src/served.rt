ghost use Rattle.std.specs.Prelude.{◌≡◌};
ghost use Rattle.mvo_keep.specs.Keeping.{once_more};

use crate::chore::Chore;

/// So many collections in a row are counted, at most.
const MOST_TIMES: u64 = 4_294_967_296;

/// What the last chore but for flushes was for: files, stored commits and versions are served by
/// turns.
#[derive(Clone, Copy, Debug, PartialEq, Eq)]
pub enum Served {
    /// The files: no trim and no collection came since.
    Files,
    /// The stored commits, with 0 here; or the versions: so many collections have come in a row.
    Memory(u64),
}

impl Served {
    ghost use Rattle.std.specs.Prelude.{◌≡◌};
    ghost use Rattle.mvo_keep.specs.Keeping.{served_after, served_behind_collection};

    /// Behind this chore. A flush serves none of these.
    pub fn after(self, chore: Chore) -> Served
        ensures { result ≡ served_after chore self }
    {
        match chore {
            Chore::Flush => self,
            Chore::Trim(_) => Served::Memory(0),
            Chore::Collect(_) => self.behind_collection(),
            Chore::Step(_) | Chore::Reclaim | Chore::Merge(_) | Chore::Checkpoint | Chore::Rotate =>
                Served::Files,
        }
    }

    /// One more collection.
    fn behind_collection(self) -> Served
        ensures { result ≡ served_behind_collection self }
    {
        match self {
            Served::Files => Served::Memory(1),
            Served::Memory(times) => Served::Memory(once_more(times)),
        }
    }
}

/// One more, as far as is counted.
fn once_more(times: u64) -> u64
    ensures { result ≡ once_more times }
{
    if times < MOST_TIMES { times + 1 } else { times }
}
