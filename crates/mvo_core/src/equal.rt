//! Whether operations are equal, with what they were answered.
ghost use Rattle.std.specs.Prelude.{◌≡◌, ◌↔◌, IsTrue};
ghost use Rattle.std.specs.Option.{option_copied};
ghost use Rattle.mvo_types.specs.AnswerData.{answer_data};
ghost use Rattle.mvo_theory.specs.Told.{history_told};
ghost use Rattle.mvo_core.specs.Holding.{told_as};

use mvo_types::{Answer, Op, Row};

/// Whether both lists have the same operations, with the same answers.
pub fn same_operations(one: &[(Op, Answer)], two: &[(Op, Answer)]) -> bool
    ensures { IsTrue result ↔ (history_told one.now ≡ history_told two.now) }
{
    let mut rest = two;
    for told in one {
        let [other, after @ ..] = rest else {
            return false;
        };
        if !is_told_alike(told, other) {
            return false;
        }
        rest = after;
    }
    rest.is_empty()
}

/// Whether both are the same operation, with the same answer.
fn is_told_alike(one: &(Op, Answer), two: &(Op, Answer)) -> bool
    ensures { IsTrue result ↔ (told_as one.now ≡ told_as two.now) }
{
    same_op(&one.0, &two.0) && same_answer(&one.1, &two.1)
}

/// Whether the two are one operation.
pub fn same_op(one: &Op, two: &Op) -> bool
    ensures { IsTrue result ↔ (one.now ≡ two.now) }
{
    match (one, two) {
        (Op::Read(one), Op::Read(two)) => one == two,
        (Op::Scan(table, lo, hi), Op::Scan(other, from, to)) => {
            table == other && lo == from && hi == to
        }
        (Op::Insert(one), Op::Insert(two)) => one.same(two),
        (Op::Update(one), Op::Update(two)) => one.same(two),
        (Op::Delete(one), Op::Delete(two)) => one == two,
        _ => false,
    }
}

/// Whether the two are one answer.
pub fn same_answer(one: &Answer, two: &Answer) -> bool
    ensures { IsTrue result ↔ (answer_data one.now ≡ answer_data two.now) }
{
    match (one, two) {
        (Answer::Found(one), Answer::Found(two)) => same_found(one, two),
        (Answer::Rows(one), Answer::Rows(two)) => same_rows(one, two),
        (Answer::Inserted, Answer::Inserted) => true,
        (Answer::Exists, Answer::Exists) => true,
        (Answer::Updated, Answer::Updated) => true,
        (Answer::Deleted, Answer::Deleted) => true,
        (Answer::Absent, Answer::Absent) => true,
        _ => false,
    }
}

/// Whether both are one row, or none.
fn same_found(one: &Option<Row>, two: &Option<Row>) -> bool
    ensures { IsTrue result ↔ (one.now ≡ two.now) }
{
    match (one, two) {
        (Some(one), Some(two)) => one.same(two),
        (None, None) => true,
        _ => false,
    }
}

/// Whether both lists have the same rows.
fn same_rows(one: &[Row], two: &[Row]) -> bool
    ensures { IsTrue result ↔ (one.now ≡ two.now) }
{
    let mut rest = two;
    for row in one {
        let [other, after @ ..] = rest else {
            return false;
        };
        if !row.same(other) {
            return false;
        }
        rest = after;
    }
    rest.is_empty()
}
