//! Counts in a ledger what only proofs know.

ghost use Rattle.std.specs.Prelude.{◌≡◌, ℕ, ◌+◌, ◌<◌};

use std::sync::ledger::{Book, Ledger, Share};

/// Adds the same number to the total and to the share's amount. No code holds the number.
pub fn add_known<L: Ledger>(book: &mut Book<L>, share: &mut Share<L>)
    ghost more: { ℕ }
    requires { 0 < share.old.parts }
    ensures total { book.new.total ≡ book.old.total + more }
    ensures amount { share.new.amount ≡ share.old.amount + more }
    ensures parts { share.new.parts ≡ share.old.parts }
{}
