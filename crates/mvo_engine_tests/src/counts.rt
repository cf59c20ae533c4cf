ghost use Rattle.std.specs.Prelude.{◌≡◌, ℕ, ◌<◌};

use crate::equal::holds;
use mvo_engine::add_known;
use std::marker::Brand;
use std::sync::ledger::{Blank, Book, Ledger, Share};
use std::test::*;

/// A book that this number was counted in, and the share that counted it.
fn counted<L: Ledger>(blank: Blank) -> (Book<L>, Share<L>)
    ghost more: { ℕ }
    requires name { blank.name ≡ L.name }
    requires parts { blank.parts ≡ L.parts }
    requires some { 0 < L.parts }
    ensures total { result.0.total ≡ more }
    ensures amount { result.1.amount ≡ more }
{
    let (mut book, mut share) = blank.open::<L>();
    add_known(&mut book, &mut share);
    (book, share)
}

/// Counts three, of which no code knows.
fn count_three<L: Ledger>(blank: Blank)
    requires name { blank.name ≡ L.name }
    requires parts { blank.parts ≡ L.parts }
    requires some { 0 < L.parts }
{
    let (mut book, mut share) = counted::<L>(blank);
    book.audit(&mut share);
}

#[test]
fn a_number_is_counted_in_both(rt: HostRuntime) -> Result<(), Fail> {
    count_three::<Brand>(Blank::new(2));
    holds(&rt, size_of::<Share<Brand>>() == 0);
    Ok(())
}
