//! The rows of a range behind own writes.
ghost use Rattle.std.specs.Prelude.{◌≡◌, [], IfOk, OnOk};
ghost use Rattle.mvo_types.specs.AnswerData.{answer_data};
ghost use Rattle.mvo_model.specs.History.{write_of, after_write, after_history};
ghost use Rattle.mvo_theory.specs.Told.{history_told};
ghost use Rattle.mvo_shared.specs.Kept.{map_of_rows};
ghost use Rattle.mvo_content.specs.Shown.{rows_in, with_first};

use crate::rows_shown::RowsShown;
use mvo_types::{Answer, Op, Row, Rows};
use std::alloc::{AllocError, Global};

/// The rows by their keys.
pub fn by_key(alloc: Global, rows: &RowsShown) -> Result<Rows, AllocError>
    ensures { IfOk result (λ map. map ≡ map_of_rows (rows_in rows.now)) }
{
    match rows {
        RowsShown::Nothing => Ok(Rows::new(alloc)),
        RowsShown::One(row) => {
            let mut map = Rows::new(alloc);
            put_first(&mut map, row)?;
            Ok(map)
        }
        RowsShown::Many(rows) => {
            let mut map = Rows::new(alloc);
            put_all(&mut map, rows)?;
            Ok(map)
        }
    }
}

/// Puts the rows into an empty map, of each key the first.
fn put_all(map: &mut Rows, rows: &[Row]) -> Result<(), AllocError>
    requires { map.old ≡ map_of_rows [] }
    ensures { OnOk result (map.new ≡ map_of_rows rows.now) }
{
    for row in rows {
        put_first(map, row)?;
    }
    Ok(())
}

/// Puts the row, unless one stands at its key.
fn put_first(map: &mut Rows, row: &Row) -> Result<(), AllocError>
    ensures { OnOk result (map.new ≡ with_first map.old row.now) }
{
    if map.contains(row.row_key()) {
        return Ok(());
    }
    map.put(row.copy()?)
}

/// Does the writes of the operations, one after another.
pub fn write_all(map: &mut Rows, told: &[(Op, Answer)]) -> Result<(), AllocError>
    ensures { OnOk result (map.new ≡ after_history (history_told told.now) map.old) }
{
    for (op, answer) in told {
        write_one(map, op, answer)?;
    }
    Ok(())
}

/// Does what the operation wrote, if it wrote.
fn write_one(map: &mut Rows, op: &Op, answer: &Answer) -> Result<(), AllocError>
    ensures { OnOk result
        (map.new ≡ after_write (write_of op.now (answer_data answer.now)) map.old) }
{
    match (op, answer) {
        (Op::Insert(row), Answer::Inserted) => map.put(row.copy()?),
        (Op::Update(row), Answer::Updated) => map.put(row.copy()?),
        (Op::Delete(key), Answer::Deleted) => {
            map.remove(*key);
            Ok(())
        }
        _ => Ok(()),
    }
}
