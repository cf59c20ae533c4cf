ghost use Rattle.mvo_script.specs.Keeping.{IsAnsweredAndKept};

use crate::driver::Driver;
use crate::reply::LineReply;
use mvo_disk::Disk;
use mvo_keep::{Keeper, Policy};

/// Who keeps the world of a script meanwhile, if somebody does.
#[derive(Drop)]
pub struct Upkeep {
    /// By what, where it is kept.
    policy: Option<Policy>,
    keeper: Keeper,
}

impl Upkeep {
    ghost use Rattle.std.specs.Prelude.{◌≡◌};
    ghost use Rattle.mvo_script.specs.Keeping.{upkeep_by};

    /// By this policy, or none. Nothing was seen yet.
    pub fn new(policy: Option<Policy>) -> Upkeep
        ensures { result ≡ upkeep_by policy }
    {
        Upkeep {
            policy,
            keeper: Keeper::new(),
        }
    }
}

/// The reply to a line, as the driver answers it; and behind that a turn of who keeps its world,
/// where somebody does. What comes of the turn isn't told: one that is refused memory for its look
/// is made again behind the next line.
pub fn answer_and_keep<D: Disk>(
    driver: &mut Driver<D>,
    upkeep: &mut Upkeep,
    line: &[u8],
) -> LineReply
    ensures { IsAnsweredAndKept D.Disk line.now driver.old upkeep.old result upkeep.new driver.new }
{
    let reply = driver.answer(line);
    match upkeep.policy {
        Some(policy) => {
            let _ = driver.keep(&policy, &mut upkeep.keeper);
            reply
        }
        None => reply,
    }
}
