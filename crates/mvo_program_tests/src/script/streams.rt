//! Readers and writers that fail.
use crate::equal::{holds, same};
use crate::script::fresh::fresh;
use mvo_script::{ScriptError, run_over};
use std::io::{self, Read, Write};
use std::test::Fail;

/// A reader that fails behind these bytes.
#[derive(Drop)]
struct BreaksOff<'a> {
    bytes: &'a [u8],
}

impl Read for BreaksOff<'_> {
    fn read(&mut self, buf: &mut [u8]) -> io::Result<usize> {
        if self.bytes.is_empty() {
            return Err(io::Error::from(io::ErrorKind::ConnectionReset));
        }
        self.bytes.read(buf)
    }
}

#[test]
fn a_reader_that_fails_ends_the_run(rt: HostRuntime) -> Result<(), Fail> {
    let alloc = rt.alloc();
    let reader = BreaksOff {
        bytes: b"begin t1\nbegin t2",
    };
    let mut replies = Vec::new(alloc);
    let ran = run_over(alloc, fresh(&rt, alloc)?, reader, &mut replies);
    holds(&rt, matches!(ran, Err(ScriptError::Read(_))));
    same(&rt, &replies.as_slice(), &b"began 1\n".as_slice());
    Ok(())
}

/// A writer that takes nothing.
#[derive(Drop)]
struct Full;

impl Write for Full {
    fn write(&mut self, _buf: &[u8]) -> io::Result<usize> {
        Err(io::Error::from(io::ErrorKind::BrokenPipe))
    }

    fn flush(&mut self) -> io::Result<()> {
        Ok(())
    }
}

#[test]
fn a_writer_that_fails_ends_the_run(rt: HostRuntime) -> Result<(), Fail> {
    let alloc = rt.alloc();
    let ran = run_over(alloc, fresh(&rt, alloc)?, b"begin t1\n".as_slice(), Full);
    holds(&rt, matches!(ran, Err(ScriptError::Write(_))));
    let ran = run_over(alloc, fresh(&rt, alloc)?, b"".as_slice(), Full);
    holds(&rt, ran.is_ok());
    let lines = vec![in alloc; b'\n'; 10_000]?;
    let ran = run_over(alloc, fresh(&rt, alloc)?, lines.as_slice(), Full);
    holds(&rt, matches!(ran, Err(ScriptError::Write(_))));
    Ok(())
}
