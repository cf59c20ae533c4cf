ghost use Rattle.std.specs.Prelude.{◌≡◌, ◌<◌, ◌∷◌, ◌++◌, IfNone, IfSome, length};
ghost use Rattle.mvo_script.specs.line.Forms.{HasForm, IsData};
ghost use Rattle.mvo_script.specs.line.Forms.{IsInRange, IsKeyInRange, IsRowInRange, IsSpanInRange};
ghost use Rattle.mvo_script.specs.line.Readable.{BeginNoKey, BeginNoLine, BeginNoRange, BeginNoRow};
ghost use Rattle.mvo_script.specs.line.Readable.{IsOfTransaction, IsNoLine};
ghost use Rattle.mvo_script.specs.line.Written.{key_words, range_words, row_words, text_of, line_words};

use crate::line::line_rest::LineRest;
use crate::line::words::{call_of, digits_of, name_of, number_of, place_of, table_of};
use mvo_store::StoreCall;
use mvo_types::{RowKey, Stamp};
use std::str;

/// The most bytes of a line, its line feed not counted. A longer one is a bad line.
pub const MAX_LINE_LEN: usize = 12_288;

/// A line of a script. Its first word says which.
#[derive(Clone, Copy)]
pub enum Line<'a> {
    /// `begin NAME`
    Begin(&'a str),
    /// `begin-read NAME`
    BeginReadOnly(&'a str),
    /// `read NAME TABLE KEY`
    Read(&'a str, RowKey),
    /// `scan NAME TABLE LO HI`
    Scan(&'a str, SortRange),
    /// `insert NAME TABLE KEY SORT DATA`
    Insert(&'a str, RowText<'a>),
    /// `update NAME TABLE KEY SORT DATA`
    Update(&'a str, RowText<'a>),
    /// `delete NAME TABLE KEY`
    Delete(&'a str, RowKey),
    /// `precommit NAME`
    Precommit(&'a str),
    /// `validate NAME`
    Validate(&'a str),
    /// `settle NAME`
    Settle(&'a str),
    /// `rollback NAME`
    Rollback(&'a str),
    /// `finish NAME`
    Finish(&'a str),
    /// `commit NAME`
    Commit(&'a str),
    /// `poll NAME`
    Poll(&'a str),
    /// `collect`
    Collect,
    /// `trim STAMP`
    Trim(Stamp),
    /// `group`
    Group,
    /// `take`
    Take,
    /// `flush`
    Flush,
    /// `rotate`
    Rotate,
    /// `checkpoint`
    Checkpoint,
    /// `merge I`
    Merge(usize),
    /// `body`, `open`, `rotate-write`, `reclaim`, or a step of a job: `checkpoint-read`,
    /// `checkpoint-data`, `checkpoint-delta`, `merge-read I`, `merge-data`, `merge-delta`,
    /// `install-close`, `install-body`, `install-open`
    Store(StoreCall),
}

/// The rows of a table with a sort from `lo` to `hi`, both with.
#[derive(Clone, Copy)]
pub struct SortRange {
    pub table: u8,
    pub lo: u64,
    pub hi: u64,
}

/// A row as a line gives it.
#[derive(Clone, Copy)]
pub struct RowText<'a> {
    pub key: RowKey,
    pub sort: u64,
    /// Its data in lower-case hexadecimal digits, two a byte.
    pub digits: &'a str,
}

impl<'a> Line<'a> {
    /// The line that these bytes are, without its line feed. None where they are no line, or too
    /// many.
    pub fn parse(bytes: &'a [u8]) -> Option<Line<'a>>
        ensures form { IfSome result HasForm }
        ensures range { IfSome result IsInRange }
        ensures text { IfSome result (λ line. text_of line ≡ bytes.now) }
        ensures too_long { MAX_LINE_LEN < length bytes.now → result ≡ None }
        ensures none { IfNone result (IsNoLine bytes.now) }
    {
        if bytes.len() > MAX_LINE_LEN {
            return None;
        }
        let Ok(text) = str::from_utf8(bytes) else {
            return None;
        };
        let mut words = LineRest::of(text);
        let line = line_of(words.next()?, &mut words)?;
        match words.next() {
            Some(_) => None,
            None => Some(line),
        }
    }
}

/// The line with this first word, from the words after it.
fn line_of<'a>(first: &str, rest: &mut LineRest<'a>) -> Option<Line<'a>>
    ensures form { IfSome result HasForm }
    ensures range { IfSome result IsInRange }
    ensures text { IfSome result (λ line. line_words line ++ rest.new ≡ first.now ∷ rest.old) }
    ensures none { IfNone result (BeginNoLine (λ _. Unit {0}) (first.now ∷ rest.old)) }
{
    match first {
        "collect" => Some(Line::Collect),
        "trim" => Some(Line::Trim(Stamp(number_of(rest.next()?)?))),
        "group" => Some(Line::Group),
        "take" => Some(Line::Take),
        "flush" => Some(Line::Flush),
        "rotate" => Some(Line::Rotate),
        "checkpoint" => Some(Line::Checkpoint),
        "merge" => Some(Line::Merge(place_of(rest.next()?)?)),
        "merge-read" => Some(Line::Store(StoreCall::MergeRead(place_of(rest.next()?)?))),
        _ => match call_of(first) {
            Some(call) => Some(Line::Store(call)),
            None => named_line_of(first, rest),
        },
    }
}

/// The line of a transaction with this first word, from the words after it.
fn named_line_of<'a>(first: &str, rest: &mut LineRest<'a>) -> Option<Line<'a>>
    ensures form { IfSome result HasForm }
    ensures range { IfSome result IsInRange }
    ensures text { IfSome result (λ line. line_words line ++ rest.new ≡ first.now ∷ rest.old) }
    ensures none { IfNone result (BeginNoLine IsOfTransaction (first.now ∷ rest.old)) }
{
    let name = name_of(rest.next()?)?;
    match first {
        "begin" => Some(Line::Begin(name)),
        "begin-read" => Some(Line::BeginReadOnly(name)),
        "read" => Some(Line::Read(name, key_of(rest)?)),
        "scan" => Some(Line::Scan(name, range_of(rest)?)),
        "insert" => Some(Line::Insert(name, row_of(rest)?)),
        "update" => Some(Line::Update(name, row_of(rest)?)),
        "delete" => Some(Line::Delete(name, key_of(rest)?)),
        "precommit" => Some(Line::Precommit(name)),
        "validate" => Some(Line::Validate(name)),
        "settle" => Some(Line::Settle(name)),
        "rollback" => Some(Line::Rollback(name)),
        "finish" => Some(Line::Finish(name)),
        "commit" => Some(Line::Commit(name)),
        "poll" => Some(Line::Poll(name)),
        _ => None,
    }
}

/// The words TABLE KEY.
fn key_of(words: &mut LineRest<'_>) -> Option<RowKey>
    ensures range { IfSome result IsKeyInRange }
    ensures text { IfSome result (λ key. key_words key ++ words.new ≡ words.old) }
    ensures none { IfNone result (BeginNoKey words.old) }
{
    let table = table_of(words.next()?)?;
    let key = number_of(words.next()?)?;
    Some(RowKey { table, key })
}

/// The words TABLE LO HI.
fn range_of(words: &mut LineRest<'_>) -> Option<SortRange>
    ensures range { IfSome result IsSpanInRange }
    ensures text { IfSome result (λ range. range_words range ++ words.new ≡ words.old) }
    ensures none { IfNone result (BeginNoRange words.old) }
{
    let table = table_of(words.next()?)?;
    let lo = number_of(words.next()?)?;
    let hi = number_of(words.next()?)?;
    Some(SortRange { table, lo, hi })
}

/// The words TABLE KEY SORT DATA.
fn row_of<'a>(words: &mut LineRest<'a>) -> Option<RowText<'a>>
    ensures data { IfSome result (λ row. IsData row.digits.now) }
    ensures range { IfSome result IsRowInRange }
    ensures text { IfSome result (λ row. row_words row ++ words.new ≡ words.old) }
    ensures none { IfNone result (BeginNoRow words.old) }
{
    let key = key_of(words)?;
    let sort = number_of(words.next()?)?;
    let digits = digits_of(words.next()?)?;
    Some(RowText { key, sort, digits })
}
