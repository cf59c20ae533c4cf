ghost use Rattle.std.specs.Prelude.{◌≡◌, ◌∷◌, [], List, ℕ, Some, false, IfErr, IfOk, IfSome, IsSome, IsSomeAnd};
ghost use Rattle.std.specs.Prelude.{codes, map, option_map};
ghost use Rattle.clap.specs.Words.{FailsBy, Text, app_of, kind_of, rule_of, subcommand_rows_of, with_subcommand};
ghost use Rattle.clap.specs.declared.Command.TheViews.{out-Command};
ghost use Rattle.mvo_cli.specs.Asked.{AsksFor, commands, folder_rule, no_command, rows_command, table_rule, with_folder, work_command};
ghost use Rattle.mvo_cli.specs.Asked.{run_command, serve_command, stops_command, with_looks};
ghost use Rattle.mvo_cli.specs.Tasks.{IsTask};

use crate::asked_run::run_command;
use crate::asked_serve::{SERVE, serve_command, serve_task_of};
use crate::asked_work::{WORK, work_command, work_task_of};
use crate::stops_words::stops_command;
use crate::task::{FOLDER, TABLE, Task, task_of};
use clap::builder::ValueParser;
use clap::error::ErrorKind;
use clap::{Arg, ArgMatches, Command, Error};
use std::alloc::{AllocError, Global};

/// The program's name.
const PROGRAM: &str = "mvo";
/// The program's version, and the versions of files that it reads.
const VERSION: &str = "0 files 1 2";

/// The task that the words ask for, the program's own name first. An error is help or the version
/// that was asked for, a wrong or lacking word, or out of memory.
pub fn command<'a>(alloc: Global, words: &'a [&'a str]) -> Result<Task<'a>, Error>
    ensures asked { IfOk result (λ t. AsksFor (map (λ w. w.now) words.entry.now) t) }
    ensures run { (name : Text) → map (λ w. w.now) words.entry.now ≡ name ∷ codes "run" ∷ [] →
        IfErr result (λ e. kind_of e ≡ ErrorKind.OutOfMemory) }
    ensures version { (name : Text) →
        map (λ w. w.now) words.entry.now ≡ name ∷ codes "--version" ∷ [] →
        FailsBy (ErrorKind.DisplayVersion ∷ []) result }
{
    let mut mvo = command_line(alloc)?;
    task_by(alloc, &mut mvo, words)
}

/// The task that the words ask for, by the program's commands.
fn task_by<'a>(
    alloc: Global,
    mvo: &mut Command<'a>,
    words: &'a [&'a str],
) -> Result<Task<'a>, Error>
    ensures asked { app_of mvo.old ≡ commands →
        IfOk result (λ t. AsksFor (map (λ w. w.now) words.entry.now) t) }
    ensures run { app_of mvo.old ≡ commands → (name : Text) →
        map (λ w. w.now) words.entry.now ≡ name ∷ codes "run" ∷ [] →
        IfErr result (λ e. kind_of e ≡ ErrorKind.OutOfMemory) }
    ensures version { app_of mvo.old ≡ commands → (name : Text) →
        map (λ w. w.now) words.entry.now ≡ name ∷ codes "--version" ∷ [] →
        FailsBy (ErrorKind.DisplayVersion ∷ []) result }
{
    // What was matched is let go of here, before the ways part.
    let task = task_among(alloc, &mvo.try_get_matches_from_mut(words)?);
    match task {
        Ok(Some(task)) => Ok(task),
        Ok(None) => Err(mvo.error(ErrorKind::InvalidSubcommand, "no such command")?),
        Err(error) => Err(error.into()),
    }
}

/// The task that was matched, if one was.
fn task_among<'a>(alloc: Global, matches: &ArgMatches<'a>) -> Result<Option<Task<'a>>, AllocError>
    ensures task { IfOk result (λ o. IfSome o (λ t.
        IsSomeAnd (subcommand_rows_of matches.now) (λ p. IsTask p.0 p.1 t))) }
    ensures run { option_map (λ p. p.0) (subcommand_rows_of matches.now) ≡ Some (codes "run") →
        IfOk result IsSome }
{
    match matches.subcommand() {
        Some((WORK, found)) => work_task_of(alloc, found),
        Some((SERVE, found)) => Ok(serve_task_of(found)),
        Some((name, found)) => Ok(task_of(name, found)),
        None => Ok(None),
    }
}

/// The word that is the path of a folder.
fn folder_arg<'a>(alloc: Global, is_required: bool) -> Arg<'a>
    ensures rule { rule_of result ≡ folder_rule is_required }
    ensures local { result.global ≡ false }
{
    Arg::new(alloc, FOLDER)
        .help("The folder of the store")
        .required(is_required)
}

/// The word that is the number of a table.
fn table_arg<'a>(alloc: Global) -> Arg<'a>
    ensures rule { rule_of result ≡ table_rule }
    ensures local { result.global ≡ false }
{
    Arg::new(alloc, TABLE)
        .help("The number of a table, 0 to 63")
        .required(true)
        .value_parser(ValueParser::signed(0, 63))
}

/// A command with the path of a folder.
pub fn with_folder<'a>(
    alloc: Global,
    name: &'a str,
    about: &'a str,
    is_required: bool,
) -> Result<Command<'a>, AllocError>
    ensures app { IfOk result (λ c. app_of c ≡ with_folder name.entry.now is_required) }
    ensures local { IfOk result (λ c. (out-Command c).has_globals ≡ false) }
{
    let folder = folder_arg(alloc, is_required);
    Command::new(alloc, name).about(about).arg(folder)
}

/// Adds a command with the path of a folder.
fn add_command<'a>(
    mvo: Command<'a>,
    alloc: Global,
    name: &'a str,
    about: &'a str,
    is_required: bool,
) -> Result<Command<'a>, AllocError>
    ensures { IfOk result (λ c. app_of c
        ≡ with_subcommand (app_of mvo.entry) (with_folder name.entry.now is_required).top) }
{
    match with_folder(alloc, name, about, is_required) {
        Ok(command) => mvo.subcommand(command),
        Err(error) => Err(error),
    }
}

/// Adds the command that runs a script.
fn add_run<'a>(mvo: Command<'a>, alloc: Global) -> Result<Command<'a>, AllocError>
    ensures { IfOk result (λ c. app_of c ≡ with_subcommand (app_of mvo.entry) run_command.top) }
{
    mvo.subcommand(run_command(alloc)?)
}

/// Adds the command that prints the rows of a table.
fn add_rows<'a>(mvo: Command<'a>, alloc: Global) -> Result<Command<'a>, AllocError>
    ensures { IfOk result (λ c. app_of c ≡ with_subcommand (app_of mvo.entry) rows_command.top) }
{
    mvo.subcommand(rows_command(alloc)?)
}

/// Adds the command that runs jobs.
fn add_work<'a>(mvo: Command<'a>, alloc: Global) -> Result<Command<'a>, AllocError>
    ensures { IfOk result (λ c. app_of c ≡ with_subcommand (app_of mvo.entry) work_command.top) }
{
    mvo.subcommand(work_command(alloc)?)
}

/// The command that prints the rows of a table.
fn rows_command<'a>(alloc: Global) -> Result<Command<'a>, AllocError>
    ensures app { IfOk result (λ c. app_of c ≡ rows_command) }
    ensures local { IfOk result (λ c. (out-Command c).has_globals ≡ false) }
{
    let rows = with_folder(alloc, "rows", "Prints the rows of a table", true)?;
    rows.arg(table_arg(alloc))
}

/// Adds the command that serves clients.
fn add_serve<'a>(mvo: Command<'a>, alloc: Global) -> Result<Command<'a>, AllocError>
    ensures { IfOk result (λ c. app_of c ≡ with_subcommand (app_of mvo.entry) serve_command.top) }
{
    mvo.subcommand(serve_command(alloc)?)
}

/// Adds the command that looks at what stops and faults leave.
fn add_stops<'a>(mvo: Command<'a>, alloc: Global) -> Result<Command<'a>, AllocError>
    ensures { IfOk result (λ c. app_of c ≡ with_subcommand (app_of mvo.entry) stops_command.top) }
{
    mvo.subcommand(stops_command(alloc)?)
}

/// The program with no command yet. Its usage has its own name, however its file is called.
fn no_command<'a>(alloc: Global) -> Result<Command<'a>, AllocError>
    ensures { IfOk result (λ c. app_of c ≡ no_command) }
{
    Command::new(alloc, PROGRAM)
        .about("A main-memory multiversion row store with serializable transactions")
        .version(VERSION)
        .subcommand_required(true)
        .bin_name(PROGRAM)
}

/// Adds the commands that look at a store, and keep it.
fn add_looks<'a>(mvo: Command<'a>, alloc: Global) -> Result<Command<'a>, AllocError>
    ensures { IfOk result (λ c. app_of c ≡ with_looks (app_of mvo.entry)) }
{
    let mvo = add_command(
        mvo,
        alloc,
        "dump",
        "Prints a script that makes the rows of the store in a folder anew",
        true,
    )?;
    let mvo = add_command(
        mvo,
        alloc,
        "check",
        "Opens the store in a folder and counts",
        true,
    )?;
    let mvo = add_command(
        mvo,
        alloc,
        "stats",
        "Tells what the store in a folder has, file by file",
        true,
    )?;
    add_command(
        mvo,
        alloc,
        "keep",
        "Brings the log of the store in a folder into pairs, merges these, empties files that are \
         no longer used, and counts",
        true,
    )
}

/// The program's commands with their help.
fn command_line<'a>(alloc: Global) -> Result<Command<'a>, AllocError>
    ensures { IfOk result (λ c. app_of c ≡ commands) }
{
    // Each is added by a call that takes the program, so that no way out of here lets go of it.
    let mvo = add_command(
        no_command(alloc)?,
        alloc,
        "format",
        "Makes a new store in a folder",
        true,
    )?;
    let mvo = add_run(mvo, alloc)?;
    let mvo = add_rows(mvo, alloc)?;
    let mvo = add_looks(mvo, alloc)?;
    let mvo = add_work(mvo, alloc)?;
    let mvo = add_serve(mvo, alloc)?;
    add_stops(mvo, alloc)
}
