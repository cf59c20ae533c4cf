use crate::driver::Driver;
use crate::line::MAX_LINE_LEN;
use crate::upkeep::{Upkeep, answer_and_keep};
use mvo_disk::Disk;
use mvo_keep::Policy;
use mvo_world::World;
use std::alloc::Global;
use std::io::{self, BufRead, BufReader, BufWriter, Read, Write};
use thiserror::Error;

/// Why a script isn't run to its end.
#[derive(Debug, Drop, Error)]
pub enum ScriptError {
    /// The script can't be read on. The replies to the lines before are written.
    #[error("can't read the script: {0}")]
    Read(io::Error),
    /// A reply can't be written.
    #[error("can't write the replies: {0}")]
    Write(io::Error),
    /// Memory was refused before the first line.
    #[error("out of memory")]
    OutOfMemory,
}

/// Runs a script over a world: one reply a line, also to a last line without its line feed. It
/// keeps no more than a bounded part of a line, however long that is. The replies are written as
/// the buffer fills, before it waits for more lines, and at the end. No group is flushed then.
pub fn run_over<D: Disk + Drop, R: Read + Drop, W: Write + Drop>(
    alloc: Global,
    world: World<D>,
    reader: R,
    writer: W,
) -> Result<(), ScriptError> {
    run_by(alloc, world, None, reader, writer)
}

/// Runs a script over a world as `run_over` does, and keeps the world meanwhile: behind each line
/// it makes a turn of who keeps it by this policy (`Driver::keep`), of which nothing is written. A
/// reply that speaks of the store, or of what memory keeps, may then be another than without.
pub fn run_kept_over<D: Disk + Drop, R: Read + Drop, W: Write + Drop>(
    alloc: Global,
    world: World<D>,
    policy: Policy,
    reader: R,
    writer: W,
) -> Result<(), ScriptError> {
    run_by(alloc, world, Some(policy), reader, writer)
}

/// Runs a script over a world that is kept by the policy, where there is one.
fn run_by<D: Disk + Drop, R: Read + Drop, W: Write + Drop>(
    alloc: Global,
    world: World<D>,
    policy: Option<Policy>,
    reader: R,
    writer: W,
) -> Result<(), ScriptError> {
    let mut driver = Driver::over(alloc, world);
    let mut upkeep = Upkeep::new(policy);
    run_streams(alloc, &mut driver, &mut upkeep, reader, writer)
}

/// Runs a script, reading and writing by buffers.
fn run_streams<D: Disk, R: Read + Drop, W: Write + Drop>(
    alloc: Global,
    driver: &mut Driver<D>,
    upkeep: &mut Upkeep,
    reader: R,
    writer: W,
) -> Result<(), ScriptError> {
    let mut reader = BufReader::new(alloc, reader).map_err(|_| ScriptError::OutOfMemory)?;
    let mut writer = BufWriter::new(alloc, writer).map_err(|_| ScriptError::OutOfMemory)?;
    run_lines(alloc, driver, upkeep, &mut reader, &mut writer)
}

/// Runs a script. What was answered is written also where it can't be read on.
fn run_lines<D: Disk, R: Read, W: Write>(
    alloc: Global,
    driver: &mut Driver<D>,
    upkeep: &mut Upkeep,
    reader: &mut BufReader<R>,
    writer: &mut W,
) -> Result<(), ScriptError> {
    let mut line = Vec::with_capacity(alloc, MAX_LINE_LEN + 1).map_err(
        |_| ScriptError::OutOfMemory,
    )?;
    let ran = answer_lines(driver, upkeep, &mut line, reader, writer);
    let flushed = writer.flush().map_err(ScriptError::Write);
    ran?;
    flushed
}

/// Answers each line of the reader.
fn answer_lines<D: Disk, R: Read, W: Write>(
    driver: &mut Driver<D>,
    upkeep: &mut Upkeep,
    line: &mut Vec<u8>,
    reader: &mut BufReader<R>,
    writer: &mut W,
) -> Result<(), ScriptError> {
    for _ in 0..u64::MAX {
        if !answer_next(driver, upkeep, line, reader, writer)? {
            break;
        }
    }
    Ok(())
}

/// Answers the next line, or says that there is none. Before it waits for one it writes the replies
/// so far.
fn answer_next<D: Disk, R: Read, W: Write>(
    driver: &mut Driver<D>,
    upkeep: &mut Upkeep,
    line: &mut Vec<u8>,
    reader: &mut BufReader<R>,
    writer: &mut W,
) -> Result<bool, ScriptError> {
    if !reader.buffer().contains(&b'\n') {
        writer.flush().map_err(ScriptError::Write)?;
    }
    let is_there = read_line(reader, line).map_err(ScriptError::Read)?;
    if is_there {
        write_reply(driver, upkeep, line, writer)?;
    }
    Ok(is_there)
}

fn write_reply<D: Disk, W: Write>(
    driver: &mut Driver<D>,
    upkeep: &mut Upkeep,
    line: &[u8],
    writer: &mut W,
) -> Result<(), ScriptError> {
    let reply = answer_and_keep(driver, upkeep, line);
    writeln!(writer, "{reply}").map_err(ScriptError::Write)
}

/// Reads on behind the next line feed. The line is what stands before it, or, where that is
/// longer than a line may be, its first 12,289 bytes. False where nothing is left to read.
pub fn read_line<R: BufRead>(reader: &mut R, line: &mut Vec<u8>) -> io::Result<bool> {
    line.clear();
    let limit = MAX_LINE_LEN as u64 + 1;
    let taken = Read::take(&mut *reader, limit).read_until(b'\n', line)?;
    if line.last() == Some(&b'\n') {
        line.pop();
    } else if line.len() > MAX_LINE_LEN {
        reader.skip_until(b'\n')?;
    }
    Ok(taken > 0)
}
