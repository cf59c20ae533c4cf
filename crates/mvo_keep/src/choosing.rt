//! The place of the two neighbours that are merged.
ghost use Rattle.std.specs.Prelude.{◌≡◌, IfSome};
ghost use Rattle.mvo_keep.specs.Choosing.{chosen_from, chosen_place, IsBetterOf};
ghost use Rattle.mvo_keep.specs.Due.{MayMergeAt};

use crate::choice::Choice;
use crate::neighbours::Neighbours;
use crate::policy::Policy;
use mvo_pair::Pair;

/// Of two neighbours and those that were chosen behind them, which are chosen.
fn better(
    policy: &Policy,
    choice: Choice,
    two: Neighbours,
    behind: Option<Neighbours>,
) -> Option<Neighbours>
    ensures value { result ≡ chosen_from policy.now choice two behind }
    ensures one { IfSome result (λ t. IsBetterOf policy.now two behind t) }
{
    if !choice.allows(policy, &two) {
        return behind;
    }
    match behind {
        Some(later) if choice.prefers(&later, &two) => Some(later),
        _ => Some(two),
    }
}

/// The place of the neighbours that are chosen, if any are.
pub fn chosen_place(policy: &Policy, choice: Choice, pairs: &[Pair]) -> Option<usize>
    ensures value { result ≡ chosen_place policy.now choice pairs.now }
    ensures there { IfSome result (MayMergeAt policy.now pairs.now) }
{
    let mut best = None;
    let mut place = pairs.len();
    while place > 1 {
        place -= 1;
        let (left, right) = (pairs[place - 1], pairs[place]);
        let two = Neighbours {
            place: place - 1,
            left,
            right,
        };
        best = better(policy, choice, two, best);
    }
    match best {
        Some(two) => Some(two.place),
        None => None,
    }
}
