//! Counting a receipt in the ledger. How much it counts is a number that only proofs know.
ghost use Rattle.std.specs.Prelude.{◌≡◌, ℕ, ◌+◌, ◌<◌};

use crate::counts::add_known;
use crate::run::receipt::Receipt;
use crate::run::run::Run;
use std::marker::Brand;
use std::sync::ledger::{Book, Share};

/// A number that only proofs know.
pub trait Weight {
    ghost weight: { ℕ };
}

impl Weight for Brand {
    ghost weight = { 0 };
}

fn add_weight<L: Run, W: Weight>(book: &mut Book<L>, share: &mut Share<L>, receipt: &Receipt)
    requires part { 0 < share.old.parts }
    requires weight { W.weight ≡ L.watched.weigh receipt.now }
    ensures total { book.new.total ≡ book.old.total + L.watched.weigh receipt.now }
    ensures amount { share.new.amount ≡ share.old.amount + L.watched.weigh receipt.now }
    ensures parts { share.new.parts ≡ share.old.parts }
{
    let _ = receipt;
    add_known(book, share);
}

/// Counts the receipt, if it is the one that the ledger counts. No code knows which one that is.
pub fn count<L: Run>(book: &mut Book<L>, share: &mut Share<L>, receipt: &Receipt)
    requires { 0 < share.old.parts }
    ensures total { book.new.total ≡ book.old.total + L.watched.weigh receipt.now }
    ensures amount { share.new.amount ≡ share.old.amount + L.watched.weigh receipt.now }
    ensures parts { share.new.parts ≡ share.old.parts }
{
    add_weight::<L, Brand>(book, share, receipt);
}
