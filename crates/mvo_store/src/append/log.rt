use crate::jobs::store_caller::StoreCaller;
use mvo_types::Refusal;

/// A log as a flush makes its groups durable: a store with the groups that wait for it.
pub trait Log: StoreCaller {
    ghost use Rattle.std.specs.Prelude.{Result};
    ghost use Rattle.mvo_types.specs.declared.refusal.Refusal.{Refusal};

    /// What taking the next group comes to: the log before it, its result, and the log after it.
    ghost takes: { Self → Result (Unit {0}) Refusal → Self → Type 0 };

    /// Takes the next group, to append it, or refuses it as `Store::take_group` does. With no group
    /// left it is refused with NothingToDo.
    fn take_next(&mut self) -> Result<(), Refusal>
        ensures { takes self.old result self.new };
}
