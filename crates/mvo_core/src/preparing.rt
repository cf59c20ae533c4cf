//! An operation on a key, prepared for the work of its transaction.
ghost use Rattle.std.specs.Prelude.{◌≡◌, ◌∷◌, [], IfOk, OnOk, OnErr};
ghost use Rattle.std.specs.Option.{option_to_list};
ghost use Rattle.mvo_types.specs.declared.entry.Entry.TheVariants.{Key};
ghost use Rattle.mvo_theory.specs.Entries.{entry_of};
ghost use Rattle.mvo_content.specs.Shown.{rows_in, AreRowsOf};
ghost use Rattle.mvo_types.specs.AnswerData.{answer_data};
ghost use Rattle.mvo_shared.specs.Kept.{after_op};
ghost use Rattle.mvo_deps.specs.Nodes.{after_register_all};
ghost use Rattle.mvo_deps.specs.Graph.{IsUnfinished};
ghost use Rattle.mvo_content.specs.Works.{HaveSameWorks, IsPreparedAt};
ghost use Rattle.mvo_content.specs.Works.{MayBeKept, HasWorkFor, works_in, answer_of_work};
ghost use Rattle.mvo_core.specs.Looking.{row_shown};

use crate::kept_transaction::Table;
use mvo_chain::VersionNo;
use mvo_content::{NextOperation, RowsShown, Works};
use mvo_deps::register;
use mvo_txn::Located;
use mvo_types::{Answer, Op, Row, TxId};
use mvo_versions::Versions;
use std::alloc::AllocError;

/// Who prepares an insert.
struct Inserting {}

/// An update.
struct Updating {}

/// A delete.
pub struct Deleting {}

/// A scan.
pub struct Scanning {}

/// One that depends on another.
struct Waiting {}

/// The operation on a key, with its answer where others show the row of this version there, and
/// room for it. Until it is told, nothing is done.
#[inline(always)]
pub fn prepare<By>(
    works: &mut Works,
    versions: &Versions,
    id: TxId,
    op: Op,
    number: Option<VersionNo>,
) -> Result<NextOperation, AllocError>
    requires { AreRowsOf (entry_of op) (option_to_list (row_shown versions.now.slots number)) }
    ensures same { HaveSameWorks works.old works.new }
    ensures next { IfOk result (IsPreparedAt works.new id.0 op
        (option_to_list (row_shown versions.now.slots number))) }
{
    let others = rows_of(row_at(versions, number)?);
    works.prepare::<By>(id, op, others)
}

/// Does an operation on a key where others show the row of this version there, and lets the
/// transaction depend on the other, if there is one; or does neither.
#[inline(always)]
pub fn do_at_key(
    works: &mut Works,
    table: &mut Table,
    versions: &Versions,
    tx: Located,
    op: Op,
    number: Option<VersionNo>,
    on: Option<TxId>,
) -> Result<Answer, AllocError>
    requires unfinished { IsUnfinished table.old tx.id }
    requires work { MayBeKept works.old tx.id.0 op
        (option_to_list (row_shown versions.now.slots number)) }
    ensures told { OnOk result (HasWorkFor works.old works.new tx.id.0
        (after_op (works_in works.old tx.id.0) op
        (option_to_list (row_shown versions.now.slots number)))) }
    ensures answer { IfOk result (λ a. answer_data a ≡ answer_of_work (works_in works.old tx.id.0)
        op (option_to_list (row_shown versions.now.slots number))) }
    ensures depends { OnOk result
        (table.new ≡ after_register_all table.old tx.id (option_to_list on)) }
    ensures same { OnErr result (HaveSameWorks works.old works.new) }
    ensures alone { OnErr result (table.new ≡ table.old) }
{
    let row = row_at(versions, number)?;
    let others = rows_of(row);
    let Some(on) = on else {
        return Ok(works.do_operation(tx.id, op, others)?);
    };
    do_depending(works, table, tx, op, others, on)
}

/// The same of one that depends on the other. That is seldom, so it lies apart.
#[inline(never)]
fn do_depending(
    works: &mut Works,
    table: &mut Table,
    tx: Located,
    op: Op,
    others: RowsShown,
    on: TxId,
) -> Result<Answer, AllocError>
    requires unfinished { IsUnfinished table.old tx.id }
    requires work { MayBeKept works.old tx.id.0 op (rows_in others) }
    ensures told { OnOk result (HasWorkFor works.old works.new tx.id.0
        (after_op (works_in works.old tx.id.0) op (rows_in others))) }
    ensures answer { IfOk result (λ a. answer_data a
        ≡ answer_of_work (works_in works.old tx.id.0) op (rows_in others)) }
    ensures depends { OnOk result
        (table.new ≡ after_register_all table.old tx.id (on ∷ [])) }
    ensures same { OnErr result (HaveSameWorks works.old works.new) }
    ensures alone { OnErr result (table.new ≡ table.old) }
{
    let next = works.prepare::<Waiting>(tx.id, op, others)?;
    register(table, tx, on)?;
    Ok(works.tell(tx.id, next))
}

/// The same of an insert of the row.
#[inline(always)]
pub fn prepare_insert(
    works: &mut Works,
    versions: &Versions,
    id: TxId,
    row: &Row,
    number: Option<VersionNo>,
) -> Result<NextOperation, AllocError>
    requires { AreRowsOf (Key row.now.key) (option_to_list (row_shown versions.now.slots number)) }
    ensures same { HaveSameWorks works.old works.new }
    ensures next { IfOk result (IsPreparedAt works.new id.0 (Op.Insert row.now)
        (option_to_list (row_shown versions.now.slots number))) }
{
    let op = Op::Insert(row.copy()?);
    prepare::<Inserting>(works, versions, id, op, number)
}

/// The same of an update to the row.
#[inline(always)]
pub fn prepare_update(
    works: &mut Works,
    versions: &Versions,
    id: TxId,
    row: &Row,
    number: Option<VersionNo>,
) -> Result<NextOperation, AllocError>
    requires { AreRowsOf (Key row.now.key) (option_to_list (row_shown versions.now.slots number)) }
    ensures same { HaveSameWorks works.old works.new }
    ensures next { IfOk result (IsPreparedAt works.new id.0 (Op.Update row.now)
        (option_to_list (row_shown versions.now.slots number))) }
{
    let op = Op::Update(row.copy()?);
    prepare::<Updating>(works, versions, id, op, number)
}

/// The row of a key, if there is one, as the rows of its entry.
#[inline(always)]
fn rows_of(row: Option<Row>) -> RowsShown
    ensures { rows_in result ≡ option_to_list row }
{
    match row {
        Some(row) => RowsShown::One(row),
        None => RowsShown::Nothing,
    }
}

/// A copy of the row of the version, if there is one.
#[inline(always)]
pub fn row_at(versions: &Versions, number: Option<VersionNo>) -> Result<Option<Row>, AllocError>
    ensures { IfOk result (λ row. row ≡ row_shown versions.now.slots number) }
{
    let Some(number) = number else {
        return Ok(None);
    };
    match versions.get(number) {
        Some(version) => Ok(Some(version.row.copy()?)),
        None => Ok(None),
    }
}
