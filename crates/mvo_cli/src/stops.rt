//! `mvo stops`: what a stop or a fault at any call of a script leaves.
use crate::fault::Fault;
use crate::script_file::read_script;
use crate::seed::draw_seed;
use mvo_stops::{Recorded, Report, ScriptStart, Watch, check_stops, explain_call, lines_of};
use std::fs::{File, Files};
use std::io::{self, Write};
use std::random::RandomSource;
use std::thread::Threads;

/// Shows on standard error, where that is a terminal, how far the calls are looked at.
#[derive(Drop)]
struct ShownCalls<'a, R: Eprint> {
    rt: &'a R,
    is_terminal: bool,
}

impl<R: Eprint> Watch for ShownCalls<'_, R> {
    fn tell(&mut self, done: u64, all: u64, images: u64) {
        if self.is_terminal {
            let end = if done >= all { "\n" } else { "" };
            let _ = eprint!(self.rt; "\rcall {done} of {all}, {images} images{end}");
        }
    }
}

/// The calls of the script in a file, over a fresh store in memory.
fn recorded_in<R>(rt: &R, path: &str) -> Result<Recorded, Fault>
where
    R: AllocGlobal + Files<File = File> + RandomSource + Threads + Sync,
{
    let alloc = rt.alloc();
    let text = read_script(rt, path)?;
    let lines = lines_of(alloc, &text)?;
    recorded_of(rt, lines)
}

/// The calls of a script's lines, over a fresh store in memory.
fn recorded_of<R>(rt: &R, lines: Vec<Vec<u8>>) -> Result<Recorded, Fault>
where
    R: AllocGlobal + RandomSource + Threads + Sync,
{
    let seed = draw_seed(rt)?;
    let alloc = rt.alloc();
    let start = ScriptStart::formatted(alloc).map_err(Fault::Stops)?;
    Recorded::of(rt, alloc, seed, start, lines).map_err(Fault::Stops)
}

/// Prints `ok`, or `failed N` with the first call at which something is wrong, which is a fault
/// then. How much was looked at goes to standard error.
pub fn print_stops<R>(rt: &R, path: &str, is_terminal: bool) -> Result<(), Fault>
where
    R: AllocGlobal + Print + Eprint + Files<File = File> + RandomSource + Threads + Sync,
{
    let recorded = recorded_in(rt, path)?;
    let mut shown = ShownCalls { rt, is_terminal };
    let report = check_stops(rt, &recorded, &mut shown).map_err(Fault::Stops)?;
    print_report(rt, report)
}

/// Prints what was found.
fn print_report(rt: &(impl Print + Eprint), report: Report) -> Result<(), Fault> {
    let Report { counts, failed } = report;
    let (calls, images, openings) = (counts.calls, counts.images, counts.openings);
    let _ = eprintln!(rt; "{calls} calls, {images} images, {openings} openings");
    match failed {
        None => writeln!(io::writer(rt), "ok").map_err(Fault::Print),
        Some(failed) => {
            let call = failed.call;
            writeln!(io::writer(rt), "failed {call}").map_err(Fault::Print)?;
            Err(Fault::Found(failed))
        }
    }
}

/// Prints what a call is, and what each image at it opens as.
pub fn print_call<R>(rt: &R, number: u64, path: &str) -> Result<(), Fault>
where
    R: AllocGlobal + Print + Files<File = File> + RandomSource + Threads + Sync,
{
    let recorded = recorded_in(rt, path)?;
    let number = usize::try_from(number).unwrap_or(usize::MAX);
    let text = explain_call(rt, &recorded, number).map_err(Fault::Stops)?;
    write!(io::writer(rt), "{text}").map_err(Fault::Print)
}
