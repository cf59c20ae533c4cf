//! What the opening of images answers. Each line of standard input is an image of a disk: words
//! FILE:DIGITS, the number of a file and its bytes in hexadecimal digits, with a space between two
//! of them. All other files are empty. The answer to each is a line: the refusal, or what
//! `mvo check` says of a folder with these files, and behind it each row.
mod image;
mod opening;

use anyhow::Result;
use std::io::{self, BufRead, BufReader, BufWriter, Write};
use std::thread::Threads;

/// Answers each line.
pub fn run(rt: &HostRuntime, threads: &(impl AllocGlobal + Threads + Sync)) -> Result<()> {
    let alloc = rt.alloc();
    let reader = BufReader::new(alloc, rt.reader())?;
    let mut writer = BufWriter::new(alloc, io::writer(rt))?;
    for line in reader.lines(alloc) {
        opening::write_answer(threads, line?.as_str(), &mut writer)?;
    }
    writer.flush()?;
    Ok(())
}
