use mvo_types::{Answer, Op};
use std::alloc::Global;
use std::marker::Model;

// As many as unfinished transactions are common at once.
const MOST: usize = 64;

// A list with room for more operations than this isn't kept.
const FEW: usize = 128;

/// The emptied lists of operations of commits that are forgotten, for transactions that begin:
/// without them each commit would take a new list with it. No more than `MOST` are kept.
pub struct SpareLists {
    lists: Vec<Vec<(Op, Answer)>>,
}

impl Drop for SpareLists {
    fn drop(self) {
        let SpareLists { lists: _ } = self;
    }
}

impl Model for SpareLists {
    ghost use Rattle.std.specs.Prelude.{◌≤◌, ⊤, length};
    ghost use Rattle.mvo_tale.specs.Spare.{AreEmpty};
    ghost use Rattle.mvo_tale.specs.declared.spare_lists.TheConstants.{MOST};

    ghost Value = { ⊤ };

    ghost view = { λ s. tt };

    ghost invariant = { λ s. AreEmpty s.lists.items × (length s.lists.items ≤ MOST) };
}

impl SpareLists {
    ghost use Rattle.std.specs.Prelude.{◌≡◌, [], IfSome};

    /// None yet, and room for none. It takes no memory.
    pub fn new(alloc: Global) -> SpareLists {
        SpareLists {
            lists: Vec::new(alloc),
        }
    }

    /// Sees to it that there is room for the most that are kept. Refused, none are.
    pub fn make_room(&mut self) {
        if self.lists.capacity() == 0 {
            let _ = self.lists.reserve_exact(MOST);
        }
    }

    /// Keeps the memory of a list, unless enough are kept. It takes no memory.
    pub fn keep(&mut self, mut list: Vec<(Op, Answer)>) {
        let len = self.lists.len();
        if list.capacity() <= FEW && len < MOST && len < self.lists.capacity() {
            list.clear();
            let _ = self.lists.push(list);
        }
    }

    /// An empty list, if one is kept.
    pub fn take(&mut self) -> Option<Vec<(Op, Answer)>>
        ensures { IfSome result (λ list. list.items ≡ []) }
    {
        self.lists.pop()
    }
}
