use mvo_core::{Closed, Collection, Finishing, Settlement, Validation};
use mvo_store::{Generation, Progress, Reclaimed};
use mvo_types::{Answer, Row};
use mvo_world::Reply;
use std::fmt;

/// What is answered to a line of a script. It is printed as the reply line, without a line feed.
#[derive(Drop)]
pub enum LineReply {
    /// The line isn't one of a script, or its name was never begun.
    BadLine,
    /// What the step answered, or the step at which a shorthand ended.
    Answered(Reply),
}

impl fmt::Display for LineReply {
    fn fmt<W: fmt::Write>(&self, f: &mut fmt::Formatter<W>) -> fmt::Result {
        match self {
            LineReply::BadLine => write!(f, "bad line"),
            LineReply::Answered(reply) => write_reply(f, reply),
        }
    }
}

/// Writes the text of a reply.
fn write_reply<W: fmt::Write>(f: &mut fmt::Formatter<W>, reply: &Reply) -> fmt::Result {
    match reply {
        Reply::Began(id) => write!(f, "began {id}"),
        Reply::Answered(answer) => write_answer(f, answer),
        Reply::Prepared(end) => write!(f, "preparing {end}"),
        Reply::Settled(Settlement::Committed(end)) => write!(f, "committed {end}"),
        Reply::Settled(Settlement::Waiting(id)) => write!(f, "waiting {id}"),
        Reply::Trimmed(start) => write!(f, "trimmed {start}"),
        Reply::Closed(Closed { prev, mark }) => write!(f, "closed {prev} {mark}"),
        Reply::Durable(mark) => write!(f, "durable {mark}"),
        Reply::Installed(Generation(count)) => write!(f, "installed {count}"),
        Reply::Refused(refusal) => write!(f, "{refusal}"),
        _ => f.write_str(words_of(reply)),
    }
}

/// The text of a reply that is words alone, and none for any other.
fn words_of(reply: &Reply) -> &'static str {
    match reply {
        Reply::Validated(Validation::Valid) => "valid",
        Reply::RolledBack => "rolled back",
        Reply::Finished(Finishing::Done) | Reply::Reclaimed(Reclaimed::Done) => "done",
        Reply::Collected(Collection::Collected) => "collected",
        Reply::Collected(Collection::Nothing) => "nothing",
        Reply::Taken => "taken",
        Reply::Written => "written",
        Reply::Polled(true) => "yes",
        Reply::Polled(false) => "no",
        Reply::Ready | Reply::Progress(Progress::Ready) => "ready",
        Reply::Validated(Validation::More)
        | Reply::Finished(Finishing::More)
        | Reply::Progress(Progress::More)
        | Reply::Reclaimed(Reclaimed::More) => "more",
        Reply::Shut => "closed",
        Reply::Began(_)
        | Reply::Answered(_)
        | Reply::Prepared(_)
        | Reply::Settled(_)
        | Reply::Trimmed(_)
        | Reply::Closed(_)
        | Reply::Durable(_)
        | Reply::Installed(_)
        | Reply::Refused(_) => "",
    }
}

/// Writes the text of an answer.
fn write_answer<W: fmt::Write>(f: &mut fmt::Formatter<W>, answer: &Answer) -> fmt::Result {
    match answer {
        Answer::Found(Some(row)) => {
            let sort = row.sort;
            write!(f, "row {sort} ")?;
            write_data(f, row.bytes())
        }
        Answer::Found(None) => f.write_str("none"),
        Answer::Rows(rows) => write_rows(f, rows),
        Answer::Inserted => f.write_str("inserted"),
        Answer::Exists => f.write_str("exists"),
        Answer::Updated => f.write_str("updated"),
        Answer::Deleted => f.write_str("deleted"),
        Answer::Absent => f.write_str("absent"),
    }
}

/// Writes how many rows there are, and each as KEY:SORT:DATA.
fn write_rows<W: fmt::Write>(f: &mut fmt::Formatter<W>, rows: &[Row]) -> fmt::Result {
    let count = rows.len();
    write!(f, "rows {count}")?;
    for row in rows {
        let (key, sort) = (row.key.key, row.sort);
        write!(f, " {key}:{sort}:")?;
        write_data(f, row.bytes())?;
    }
    Ok(())
}

/// Writes bytes in lower-case hexadecimal digits, and `-` for none.
fn write_data<W: fmt::Write>(f: &mut fmt::Formatter<W>, bytes: &[u8]) -> fmt::Result {
    if bytes.is_empty() {
        return f.write_str("-");
    }
    for byte in bytes {
        write!(f, "{byte:02x}")?;
    }
    Ok(())
}
