ghost use Rattle.std.specs.Prelude.{◌≡◌, option_map};
ghost use Rattle.mvo_script.specs.Events.{event_by, event_of_line, name_in};

use crate::line::{Line, SortRange};
use mvo_types::{Op, TxId};
use mvo_world::Event;

/// The name of the transaction that a line asks something of.
pub fn name_in<'a>(line: Line<'a>) -> Option<&'a str>
    ensures { option_map (λ n. n.now) result ≡ name_in line.entry }
{
    match line {
        Line::Read(name, _)
        | Line::Scan(name, _)
        | Line::Insert(name, _)
        | Line::Update(name, _)
        | Line::Delete(name, _)
        | Line::Precommit(name)
        | Line::Validate(name)
        | Line::Settle(name)
        | Line::Rollback(name)
        | Line::Finish(name)
        | Line::Commit(name)
        | Line::Poll(name) => Some(name),
        _ => None,
    }
}

/// The step that a line of a transaction asks for, where it is one alone and has no data.
pub fn event_by(line: Line<'_>, tx: TxId) -> Option<Event>
    ensures { result ≡ event_by line.entry tx }
{
    match line {
        Line::Read(_, key) => Some(Event::Do(tx, Op::Read(key))),
        Line::Scan(_, SortRange { table, lo, hi }) => Some(Event::Do(tx, Op::Scan(table, lo, hi))),
        Line::Delete(_, key) => Some(Event::Do(tx, Op::Delete(key))),
        Line::Precommit(_) => Some(Event::Precommit(tx)),
        Line::Validate(_) => Some(Event::Validate(tx)),
        Line::Rollback(_) => Some(Event::Rollback(tx)),
        Line::Finish(_) => Some(Event::Finish(tx)),
        _ => None,
    }
}

/// The step that a line of no transaction asks for, where it is one alone.
pub fn event_of_line(line: Line<'_>) -> Option<Event>
    ensures { result ≡ event_of_line line.entry }
{
    match line {
        Line::Collect => Some(Event::Collect),
        Line::Trim(upto) => Some(Event::Trim(upto)),
        Line::Group => Some(Event::CloseGroup),
        Line::Take => Some(Event::TakeGroup),
        Line::Store(call) => Some(Event::Store(call)),
        _ => None,
    }
}
