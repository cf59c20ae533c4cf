ghost use Rattle.std.specs.Prelude.{◌≡◌, IfOk, codes, false, option_map};
ghost use Rattle.clap.specs.Words.{app_of, found_of, rows_of, rule_of};
ghost use Rattle.clap.specs.declared.Command.TheViews.{out-Command};
ghost use Rattle.mvo_cli.specs.Asked.{keep_rule, run_command};
ghost use Rattle.mvo_cli.specs.Tasks.{IsTask, is_true, text_now};

use crate::asked::with_folder;
use crate::task::{FOLDER, Task};
use clap::{Arg, ArgAction, ArgMatches, Command};
use std::alloc::{AllocError, Global};

/// The name of the option that has the store kept meanwhile.
pub const KEEP: &str = "keep";

/// Whether the store is kept meanwhile.
pub fn keep_arg<'a>(alloc: Global, help: &'a str) -> Arg<'a>
    ensures rule { rule_of result ≡ keep_rule }
    ensures local { result.global ≡ false }
{
    Arg::new(alloc, KEEP)
        .long(KEEP)
        .help(help)
        .action(ArgAction::SetTrue)
}

/// The command that runs a script.
pub fn run_command<'a>(alloc: Global) -> Result<Command<'a>, AllocError>
    ensures app { IfOk result (λ c. app_of c ≡ run_command) }
    ensures local { IfOk result (λ c. (out-Command c).has_globals ≡ false) }
{
    let about = "Runs a script from standard input, one reply a line, over a fresh store in memory \
                 or over the store in a folder";
    let run = with_folder(alloc, "run", about, false)?;
    run.arg(keep_arg(
        alloc,
        "Does one thing that is due behind each line: a flush, a step of a checkpoint or a merge, \
         a trim",
    ))
}

/// What `run` asks for.
pub fn run_of<'a>(found: &ArgMatches<'a>) -> Task<'a>
    ensures { IsTask (codes "run") (rows_of (found_of found.now)) result }
{
    let keeps = is_true(found.get_str(KEEP));
    match found.get_str(FOLDER) {
        Some(folder) => Task::RunIn(folder, keeps),
        None => Task::Run(keeps),
    }
}

/// Whether an option is there that is set by its name alone.
pub fn is_true(word: Option<&str>) -> bool
    ensures { result ≡ is_true (option_map text_now word.entry) }
{
    match word {
        Some(text) => text == "true",
        None => false,
    }
}
