ghost use Rattle.std.specs.Prelude.{◌≡◌};
ghost use Rattle.mvo_theory.specs.Entries.{entry_of};

use mvo_types::{Entry, Op};

/// What the operation looks at: a scan at its range, another at its key.
pub fn entry_of(op: &Op) -> Entry
    ensures { result ≡ entry_of op.now }
{
    match op {
        Op::Read(key) => Entry::Key(*key),
        Op::Scan(table, lo, hi) => Entry::Range(*table, *lo, *hi),
        Op::Insert(row) => Entry::Key(row.row_key()),
        Op::Update(row) => Entry::Key(row.row_key()),
        Op::Delete(key) => Entry::Key(*key),
    }
}
