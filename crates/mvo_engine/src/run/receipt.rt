use crate::run::told::Told;
use mvo_types::{Answer, Op, Stamp, TxId};
use std::marker::Model;

/// What a session was told of a transaction that it committed.
pub struct Receipt {
    pub id: TxId,
    pub begin: Stamp,
    pub end: Stamp,
    /// Its operations with their answers, in order.
    pub operations: Vec<(Op, Answer)>,
}

impl Drop for Receipt {
    fn drop(self) {
        let Receipt {
            id: _,
            begin: _,
            end: _,
            operations: _,
        } = self;
    }
}

impl Model for Receipt {
    ghost use Rattle.mvo_theory.specs.Told.{history_told};
    ghost use Rattle.mvo_core.specs.Receipts.{Receipt as ReceiptData};

    ghost Value = { ReceiptData };

    ghost view = { λ r. record {
      id = r.id.0;
      begin = r.begin.0;
      end = r.end.0;
      history = history_told r.operations.items;
    } };
}

impl Receipt {
    ghost use Rattle.std.specs.Prelude.{◌≡◌};
    ghost use Rattle.mvo_core.specs.Receipts.{receipt};

    /// The receipt of a transaction that ended there and was told this.
    pub fn new(id: TxId, end: Stamp, told: Told) -> Receipt
        ensures { result ≡ receipt id.0 end.0 told }
    {
        Receipt {
            id,
            begin: Stamp(id.0),
            end,
            operations: told.into_operations(),
        }
    }

    // Its end.
    pub(crate) fn end(&self) -> Stamp
        ensures { result.0 ≡ self.now.end }
    {
        self.end
    }

    // Lets go of its operations.
    pub(crate) fn empty(&mut self) {
        self.operations = Vec::new(*self.operations.allocator());
    }
}
