//! Answers the lines of one client.

use crate::clients::client_line::ClientLine;
use crate::clients::client_pipes::ClientPipes;
use crate::clients::client_work::ClientWork;
use crate::jobs::Lines;
use mvo_disk::Disk;
use mvo_engine::{Gate, Run, Stats};
use mvo_script::{MAX_LINE_LEN, read_line};
use std::alloc::Global;
use std::fs::File;
use std::io::{self, BufReader, BufWriter, Write};
use std::sync::Wait;

/// Answers each line of a client until its pipe ends, or the program does. The replies are written
/// as the buffer fills, before it waits for more lines, and at the end.
pub fn answer_all<L, D, G, P, R>(
    rt: &R,
    alloc: Global,
    work: &ClientWork<'_, L, D, G, P>,
    number: usize,
    lines: &mut Lines<'_, L, D, G>,
    from: File,
    to: File,
) -> io::Result<()>
where
    L: Run,
    D: Disk,
    G: Gate + Drop,
    P: ClientPipes,
    R: Wait,
{
    let mut reader = BufReader::new(alloc, from)?;
    let mut writer = BufWriter::new(alloc, to)?;
    let mut line = Vec::with_capacity(alloc, MAX_LINE_LEN + 1)?;
    for _ in rt.forever() {
        if !reader.buffer().contains(&b'\n') {
            writer.flush()?;
        }
        let is_there = read_line(&mut reader, &mut line)?;
        if !is_there || work.is_over() {
            break;
        }
        answer(rt, work, number, lines, &line, &mut writer)?;
        if work.is_over() {
            break;
        }
    }
    writer.flush()
}

/// Answers a line.
fn answer<L, D, G, P, R>(
    rt: &R,
    work: &ClientWork<'_, L, D, G, P>,
    number: usize,
    lines: &mut Lines<'_, L, D, G>,
    line: &[u8],
    writer: &mut impl Write,
) -> io::Result<()>
where
    L: Run,
    D: Disk,
    G: Gate + Drop,
    P: ClientPipes,
    R: Wait,
{
    match ClientLine::of(line) {
        ClientLine::Client => {
            lines.end(rt);
            writer.write_all(line)?;
            writer.write_all(b"\n")
        }
        ClientLine::Durable => {
            let reply = lines.make_durable(rt);
            writeln!(writer, "{reply}")
        }
        ClientLine::Leave => {
            lines.end(rt);
            writeln!(writer, "left")
        }
        ClientLine::Stats => write_stats(&work.engine().stats(rt), writer),
        ClientLine::Stop => match work.stop(rt, number) {
            Ok(()) => writeln!(writer, "stopped"),
            Err(fault) => write!(writer, "{fault}"),
        },
        ClientLine::OfJob => {
            let reply = lines.answer(rt, line);
            writeln!(writer, "{reply}")
        }
    }
}

/// Writes how the engine stands, in one line.
fn write_stats(stats: &Stats, writer: &mut impl Write) -> io::Result<()> {
    let (core, store) = (stats.core, stats.store);
    let (clock, closed, durable) = (core.clock, core.closed, store.durable);
    let (unfinished, versions, sessions) = (core.unfinished, core.versions, core.sessions);
    let (segments, bytes) = (store.segments, store.last_segment);
    let (pairs, records, dead) = (store.pairs, store.records, store.dead);
    write!(writer, "clock {clock} closed {closed} durable {durable}")?;
    write!(
        writer,
        " unfinished {unfinished} versions {versions} sessions {sessions}"
    )?;
    writeln!(
        writer,
        " segments {segments} bytes {bytes} pairs {pairs} records {records} dead {dead}"
    )
}
