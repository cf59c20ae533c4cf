//! A transfer between two accounts.
ghost use Rattle.std.specs.Prelude.{◌≡◌};

use mvo_disk::Disk;
use mvo_engine::{Gate, Outcome, Run, Session, Transaction};
use mvo_types::{Refusal, Row, RowKey};
use std::alloc::{AllocError, Global};
use std::sync::Wait;

/// How many accounts there are.
pub const ACCOUNTS: u64 = 100;

/// What each account has at the start.
pub const START: u64 = 1_000;

/// How often a transfer is tried at most.
pub const TIMES: u32 = 1_000_000;

/// Where an account stands.
pub fn key_of(account: u64) -> RowKey {
    RowKey {
        table: 0,
        key: account,
    }
}

/// The row of an account.
pub fn row_of(alloc: Global, account: u64, money: u64) -> Result<Row, AllocError> {
    Row::new(key_of(account), account, money.to_le_bytes().to_vec(alloc)?)
}

/// What an account has by its row.
pub fn money_in(row: &Row) -> u64 {
    match row.bytes() {
        [a, b, c, d, e, f, g, h] => u64::from_le_bytes([*a, *b, *c, *d, *e, *f, *g, *h]),
        _ => 0,
    }
}

/// What all accounts of these rows have.
pub fn total_of(rows: &[Row]) -> u64 {
    let mut total = 0u64;
    for row in rows {
        total = total.wrapping_add(money_in(row));
    }
    total
}

/// A transfer: from one account to another, so much. It gives up where that isn't there.
#[derive(Drop)]
pub struct Transfer {
    pub alloc: Global,
    pub from: u64,
    pub to: u64,
    pub amount: u64,
}

impl<L: Run, D: Disk, G: Gate + Drop> Transaction<(), L, D, G> for Transfer {
    fn run<R: Wait>(
        &self,
        rt: &R,
        session: &mut Session<'_, L, D, G>,
    ) -> Result<Outcome<()>, Refusal> {
        let have = money(rt, session, self.from)?;
        let others = money(rt, session, self.to)?;
        if self.from == self.to || have < self.amount {
            return Ok(Outcome::GiveUp(()));
        }
        let alloc = self.alloc;
        session.replace(
            rt,
            row_of(alloc, self.from, have.saturating_sub(self.amount))?,
        )?;
        session.replace(
            rt,
            row_of(alloc, self.to, others.saturating_add(self.amount))?,
        )?;
        Ok(Outcome::Commit(()))
    }
}

/// What an account has.
pub fn money<L: Run, D: Disk, G: Gate + Drop, R: Wait>(
    rt: &R,
    session: &mut Session<'_, L, D, G>,
    account: u64,
) -> Result<u64, Refusal>
    ensures { session.new.receipts ≡ session.old.receipts }
{
    match session.get(rt, key_of(account))? {
        Some(row) => Ok(money_in(&row)),
        None => Ok(0),
    }
}
