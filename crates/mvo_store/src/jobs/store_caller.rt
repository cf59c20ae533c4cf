use crate::call::StoreCall;
use crate::done::Done;
use mvo_types::Refusal;

/// What makes the calls of a store: a store that is one's own, or one that others call in between.
pub trait StoreCaller {
    ghost use Rattle.std.specs.Prelude.{Result};
    ghost use Rattle.mvo_types.specs.declared.refusal.Refusal.{Refusal};
    ghost use Rattle.mvo_store.specs.declared.call.StoreCall.{StoreCall};
    ghost use Rattle.mvo_store.specs.declared.done.Done.{Done};

    /// What a call comes to: the caller before it, its result, and the caller after it.
    ghost comes_to: { Self → StoreCall → Result Done Refusal → Self → Type 0 };

    /// Makes the call, and answers as `Store::call` does.
    fn call(&mut self, call: StoreCall) -> Result<Done, Refusal>
        ensures { comes_to self.old call result self.new };
}
