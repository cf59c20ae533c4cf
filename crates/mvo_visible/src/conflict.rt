ghost use Rattle.std.specs.Prelude.{◌≡◌};
ghost use Rattle.mvo_txn.specs.Txns.{state_of};
ghost use Rattle.mvo_visible.specs.Causes.{cause_of};

use mvo_txn::{TxState, TxnTable};
use mvo_types::{Cause, TxId};
use mvo_word::{Held, Word};

/// Who has ended a version with this End word first, for a writer that would end it: none where the
/// version isn't ended, or by the writer itself, or by one that is Aborted.
pub fn ended_by<P>(table: &TxnTable<P>, end: Word, writer: TxId) -> Option<Cause>
    ensures { result ≡ cause_of (state_of table.now) writer.0 end }
{
    match end.read() {
        Held::At(stamp) => Some(Cause::Stamped(stamp)),
        Held::Infinity => None,
        Held::By(id) => {
            if id.0 == writer.0 {
                return None;
            }
            match table.state(id) {
                Some(TxState::Active) => Some(Cause::Active(id)),
                Some(TxState::Preparing(stamp)) => Some(Cause::Stamped(stamp)),
                Some(TxState::Committed(stamp)) => Some(Cause::Stamped(stamp)),
                Some(TxState::Aborted) => None,
                None => None,
            }
        }
    }
}
