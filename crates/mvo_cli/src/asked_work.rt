ghost use Rattle.std.specs.Prelude.{◌≡◌, ◌<◌, codes, false, map, vec_len, IfOk, IfSome};
ghost use Rattle.clap.specs.Words.{app_of, found_of, rows_of, rule_of};
ghost use Rattle.clap.specs.declared.Command.TheViews.{out-Command};
ghost use Rattle.mvo_cli.specs.Asked.{files_rule, work_command, workers_rule};
ghost use Rattle.mvo_cli.specs.Tasks.{HasCount, HasFiles, IsTask};

use crate::asked::with_folder;
use crate::asked_run::{KEEP, is_true, keep_arg};
use crate::task::{FOLDER, Task};
use crate::work_task::WorkTask;
use crate::workers::Workers;
use clap::builder::ValueParser;
use clap::{Arg, ArgMatches, Command};
use std::alloc::{AllocError, Global};

/// The name of the command that runs jobs.
pub const WORK: &str = "work";

/// The name of the word that says how many workers run jobs at once.
pub const WORKERS: &str = "workers";

/// The name of the words that are the paths of the scripts.
pub const FILES: &str = "FILE";

/// The number of workers.
fn workers_arg<'a>(alloc: Global) -> Arg<'a>
    ensures rule { rule_of result ≡ workers_rule }
    ensures local { result.global ≡ false }
{
    Arg::new(alloc, WORKERS)
        .long(WORKERS)
        .value_name("N")
        .help("How many jobs run at once, 1 to 64")
        .required(true)
        .value_parser(ValueParser::signed(1, 64))
}

/// The paths of the scripts.
fn files_arg<'a>(alloc: Global) -> Arg<'a>
    ensures rule { rule_of result ≡ files_rule }
    ensures local { result.global ≡ false }
{
    Arg::new(alloc, FILES)
        .help("The scripts, each of which is a job")
        .required(true)
        .num_args(1..)
}

/// The command that runs jobs.
pub fn work_command<'a>(alloc: Global) -> Result<Command<'a>, AllocError>
    ensures app { IfOk result (λ c. app_of c ≡ work_command) }
    ensures local { IfOk result (λ c. (out-Command c).has_globals ≡ false) }
{
    let about = "Runs scripts as jobs, many at once, over the store in a folder, and makes their \
                 commits durable";
    let work = with_folder(alloc, WORK, about, true)?;
    let work = work.arg(workers_arg(alloc))?;
    let work = work.arg(keep_arg(
        alloc,
        "Has one more thread do what is due: flushes, checkpoints, merges, trims",
    ))?;
    work.arg(files_arg(alloc))
}

/// The jobs that the command asks for with its matches, if it has what it needs.
pub fn work_task_of<'a>(
    alloc: Global,
    found: &ArgMatches<'a>,
) -> Result<Option<Task<'a>>, AllocError>
    ensures { IfOk result (λ o. IfSome o (IsTask (codes "work") (rows_of (found_of found.now)))) }
{
    let Some(folder) = found.get_str(FOLDER) else {
        return Ok(None);
    };
    let Some(workers) = count_in(found, WORKERS) else {
        return Ok(None);
    };
    let files = files_in(alloc, found)?;
    if files.is_empty() {
        return Ok(None);
    }
    let keeps = is_true(found.get_str(KEEP));
    Ok(Some(Task::Work(WorkTask::new(folder, workers, keeps, files))))
}

/// The number that an option has in the matches, if it is one that may be.
pub fn count_in(found: &ArgMatches<'_>, option: &str) -> Option<Workers>
    ensures { IfSome result (λ w. HasCount option.now (rows_of (found_of found.now)) w.count) }
{
    let count = found.get_str(option)?.parse::<usize>().ok()?;
    Workers::new(count)
}

/// The paths of the scripts in the matches.
fn files_in<'a>(alloc: Global, found: &ArgMatches<'a>) -> Result<Vec<&'a str>, AllocError>
    ensures { IfOk result (λ v. 0 < vec_len v →
        HasFiles (rows_of (found_of found.now)) (map (λ f. f.now) v.items)) }
{
    match found.get_strs(FILES) {
        Some(paths) => copied(alloc, paths),
        None => Ok(Vec::new(alloc)),
    }
}

fn copied<'a>(alloc: Global, paths: &[&'a str]) -> Result<Vec<&'a str>, AllocError>
    ensures { IfOk result (λ v. v.items ≡ paths.now) }
{
    paths.iter().copied().collect(alloc)
}
