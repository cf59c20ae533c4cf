use crate::asked::command;
use crate::dump::write_dump;
use crate::fault::Fault;
use crate::folder::{format_folder, open_held, open_world, rows_in};
use crate::folder_stats::stats_in;
use crate::folders::Folders;
use crate::keeping::keep_held;
use crate::listing::{write_counts, write_rows, write_stats};
use crate::seed::draw_seed;
use crate::serve::serve_in;
use crate::stops::{print_call, print_stops};
use crate::task::Task;
use crate::work::work_in;
use mvo_disk::Disk;
use mvo_keep::Policy;
use mvo_script::{Driver, run_kept_over, run_over};
use mvo_world::World;
use std::fs::{File, Files};
use std::io::Write;
use std::process::ExitCode;
use std::random::RandomSource;
use std::rt::Env;
use std::sync::Wait;
use std::thread::Threads;
use std::time::Clock;
use std::{env, io};

/// Runs the program on its words, standard input and standard output. Its exit status is 0 where
/// all was done, refused lines and help included, 1 where a store wasn't made or opened, or what
/// wasn't promised was found, 2 for a bad command line, and 3 where reading or writing failed, or
/// memory or a seed was refused. Statuses 1 to 3 come with a text on standard error. Where that is
/// a terminal, it also shows how far a folder is read or a script is looked at.
pub fn run_program<R>(rt: &R, is_terminal: bool) -> ExitCode
where
    R: AllocGlobal
        + Env
        + Input
        + Print
        + Eprint
        + Files<File = File>
        + RandomSource
        + Clock
        + Folders
        + Threads
        + Wait
        + Sync
        + Clone
        + Drop,
{
    match run_words(rt, is_terminal) {
        Ok(()) => ExitCode::SUCCESS,
        Err(fault) => ExitCode::from(tell(rt, &fault)),
    }
}

/// Does the command that the program's words are.
fn run_words<R>(rt: &R, is_terminal: bool) -> Result<(), Fault>
where
    R: AllocGlobal
        + Env
        + Input
        + Print
        + Eprint
        + Files<File = File>
        + RandomSource
        + Clock
        + Folders
        + Threads
        + Wait
        + Sync
        + Clone
        + Drop,
{
    let words = words_of(rt)?;
    run_given(rt, &words, is_terminal)
}

/// The program's words.
fn words_of(rt: &(impl AllocGlobal + Env)) -> Result<Vec<String>, Fault> {
    match env::args(rt) {
        Ok(words) => Ok(words.collect(rt.alloc())?),
        Err(error) if error.kind() == io::ErrorKind::OutOfMemory => Err(Fault::OutOfMemory),
        Err(error) => Err(Fault::Words(error)),
    }
}

/// Does the command that these words are.
fn run_given<R>(rt: &R, words: &[String], is_terminal: bool) -> Result<(), Fault>
where
    R: AllocGlobal
        + Input
        + Print
        + Eprint
        + Files<File = File>
        + RandomSource
        + Clock
        + Folders
        + Threads
        + Wait
        + Sync
        + Clone
        + Drop,
{
    let alloc = rt.alloc();
    let words: Vec<&str> = words.iter().map(|word| word.as_str()).collect(alloc)?;
    match command(alloc, &words) {
        Ok(task) => run_task(rt, task, is_terminal),
        Err(error) => Err(Fault::CommandLine(error)),
    }
}

/// Does what the program is asked to do.
fn run_task<R>(rt: &R, task: Task<'_>, is_terminal: bool) -> Result<(), Fault>
where
    R: AllocGlobal
        + Input
        + Print
        + Eprint
        + Files<File = File>
        + RandomSource
        + Clock
        + Folders
        + Threads
        + Wait
        + Sync
        + Clone
        + Drop,
{
    match task {
        Task::Format(folder) => format_in(rt, folder, is_terminal),
        Task::Run(keeps) => run_fresh(rt, keeps),
        Task::RunIn(folder, keeps) => run_in(rt, folder, keeps, is_terminal),
        Task::Rows(folder, table) => print_rows(rt, folder, table, is_terminal),
        Task::Dump(folder) => print_dump(rt, folder, is_terminal),
        Task::Check(folder) => print_counts(rt, folder, is_terminal),
        Task::Stats(folder) => print_stats(rt, folder, is_terminal),
        Task::Keep(folder) => keep_and_count(rt, folder, is_terminal),
        Task::Work(task) => work_in(rt, &task, is_terminal),
        Task::Serve(task) => serve_in(rt, &task, is_terminal),
        Task::Stops(script) => print_stops(rt, script, is_terminal),
        Task::Explain(number, script) => print_call(rt, number, script),
    }
}

/// Makes a new store in a folder, and says so.
fn format_in<R>(rt: &R, folder: &str, is_terminal: bool) -> Result<(), Fault>
where
    R: AllocGlobal + Print + Eprint + Files<File = File> + Clone + Drop,
{
    format_folder(rt, folder, is_terminal)?;
    writeln!(io::writer(rt), "formatted").map_err(Fault::Print)
}

/// Runs the script of standard input over a fresh store in memory. Where memory is refused to that
/// store, it isn't opened, as one in a folder.
fn run_fresh(
    rt: &(impl AllocGlobal + Input + Print + RandomSource + Threads + Sync),
    keeps: bool,
) -> Result<(), Fault> {
    let seed = draw_seed(rt)?;
    match Driver::new(rt, rt.alloc(), seed) {
        Ok(driver) => run_world(rt, driver.into_world(), keeps),
        Err(refusal) => Err(Fault::Refused(refusal)),
    }
}

/// Runs the script of standard input over the store in a folder.
fn run_in<R>(rt: &R, folder: &str, keeps: bool, is_terminal: bool) -> Result<(), Fault>
where
    R: AllocGlobal
        + Input
        + Print
        + Eprint
        + Files<File = File>
        + RandomSource
        + Threads
        + Sync
        + Clone
        + Drop,
{
    match open_world(rt, folder, is_terminal) {
        Ok(world) => run_world(rt, world, keeps),
        Err(fault) => Err(fault),
    }
}

/// Runs the script of standard input over a world, which is kept meanwhile where that is asked.
fn run_world<D: Disk + Drop>(
    rt: &(impl AllocGlobal + Input + Print),
    world: World<D>,
    keeps: bool,
) -> Result<(), Fault> {
    let (alloc, reader, writer) = (rt.alloc(), rt.reader(), io::writer(rt));
    let ran = if keeps {
        run_kept_over(alloc, world, Policy::standard(), reader, writer)
    } else {
        run_over(alloc, world, reader, writer)
    };
    ran.map_err(Fault::Script)
}

/// Prints the rows of a table of the store in a folder.
fn print_rows<R>(rt: &R, folder: &str, table: u8, is_terminal: bool) -> Result<(), Fault>
where
    R: AllocGlobal
        + Print
        + Eprint
        + Files<File = File>
        + RandomSource
        + Threads
        + Sync
        + Clone
        + Drop,
{
    let held = open_held(rt, folder, is_terminal)?;
    write_rows(rt.alloc(), &held, table, io::writer(rt))
}

/// Prints a script that makes the rows of the store in a folder anew.
fn print_dump<R>(rt: &R, folder: &str, is_terminal: bool) -> Result<(), Fault>
where
    R: AllocGlobal
        + Print
        + Eprint
        + Files<File = File>
        + RandomSource
        + Threads
        + Sync
        + Clone
        + Drop,
{
    let rows = rows_in(rt, folder, is_terminal)?;
    write_dump(rt.alloc(), &rows, io::writer(rt))
}

/// Prints what the store in a folder holds.
fn print_counts<R>(rt: &R, folder: &str, is_terminal: bool) -> Result<(), Fault>
where
    R: AllocGlobal
        + Print
        + Eprint
        + Files<File = File>
        + RandomSource
        + Threads
        + Sync
        + Clone
        + Drop,
{
    let held = open_held(rt, folder, is_terminal)?;
    write_counts(&held, &mut io::writer(rt))
}

/// Prints what the store in a folder has, file by file.
fn print_stats<R>(rt: &R, folder: &str, is_terminal: bool) -> Result<(), Fault>
where
    R: AllocGlobal
        + Print
        + Eprint
        + Files<File = File>
        + RandomSource
        + Threads
        + Sync
        + Clone
        + Drop,
{
    let stats = stats_in(rt, folder, is_terminal)?;
    write_stats(rt.alloc(), &stats, io::writer(rt))
}

/// Does what is due of the files of the store in a folder, and prints what it holds.
fn keep_and_count<R>(rt: &R, folder: &str, is_terminal: bool) -> Result<(), Fault>
where
    R: AllocGlobal
        + Print
        + Eprint
        + Files<File = File>
        + RandomSource
        + Threads
        + Wait
        + Sync
        + Clone
        + Drop,
{
    let held = keep_held(rt, folder, is_terminal)?;
    write_counts(&held, &mut io::writer(rt))
}

/// Prints a fault, help to standard output and all else to standard error, and answers the
/// program's exit status.
fn tell(rt: &(impl Print + Eprint), fault: &Fault) -> u8 {
    if fault.is_help() {
        if let Err(error) = rt.print(fault) {
            return tell_error(rt, &Fault::Print(error));
        }
        return fault.status();
    }
    tell_error(rt, fault)
}

/// Prints a fault to standard error, and answers the program's exit status.
fn tell_error(rt: &impl Eprint, fault: &Fault) -> u8 {
    let _ = rt.eprint(fault);
    fault.status()
}
