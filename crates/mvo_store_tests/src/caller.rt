//! A caller of a store.
ghost use Rattle.std.specs.Prelude.{⊤};

use mvo_disk::MemDisk;
use mvo_store::{Done, Store, StoreCall, StoreCaller};
use mvo_types::Refusal;
use std::alloc::Global;

/// A store, and the calls that were asked for. So many more are made of it, and the others refused.
pub(crate) struct Caller {
    store: Store<MemDisk>,
    calls: Vec<StoreCall>,
    left: usize,
}

/// What a call is refused with that isn't made.
pub(crate) const NO_MORE: Refusal = Refusal::Busy;

impl Drop for Caller {
    fn drop(self) {
        let Caller {
            store: _,
            calls: _,
            left: _,
        } = self;
    }
}

impl Caller {
    pub(crate) fn new(alloc: Global, store: Store<MemDisk>, left: usize) -> Caller {
        Caller {
            store,
            calls: Vec::new(alloc),
            left,
        }
    }

    /// The calls that were asked for, in their order.
    pub(crate) fn calls(&self) -> &[StoreCall] {
        &self.calls
    }
}

impl StoreCaller for Caller {
    ghost comes_to = { λ old call result new. ⊤ };

    fn call(&mut self, call: StoreCall) -> Result<Done, Refusal> {
        self.calls.push(call)?;
        let Some(left) = self.left.checked_sub(1) else {
            return Err(NO_MORE);
        };
        self.left = left;
        self.store.call(call)
    }
}
