ghost use Rattle.std.specs.Prelude.{◌≡◌};
ghost use Rattle.mvo_script.specs.Begun.{begun};

use mvo_types::{Stamp, TxId};

/// What a name of a script is bound to.
#[derive(Clone, Copy, Debug, PartialEq, Eq)]
pub struct BoundTx {
    /// The transaction.
    pub tx: TxId,
    /// Its end timestamp, once it is Committed.
    pub end: Option<Stamp>,
}

impl BoundTx {
    /// A transaction that isn't Committed yet.
    pub fn begun(tx: TxId) -> BoundTx
        ensures { result ≡ begun tx }
    {
        BoundTx { tx, end: None }
    }
}
