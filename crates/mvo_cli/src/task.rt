ghost use Rattle.std.specs.Prelude.{◌≡◌, IfSome, IsSome, codes};
ghost use Rattle.clap.specs.Words.{found_of, rows_of};
ghost use Rattle.mvo_cli.specs.Tasks.{IsTask};

use crate::asked_run::run_of;
use crate::serve_task::ServeTask;
use crate::work_task::WorkTask;
use clap::ArgMatches;

/// The name of the word that is the path of a folder.
pub const FOLDER: &str = "DIR";

/// The name of the word that is the number of a table.
pub const TABLE: &str = "TABLE";

/// The name of the word that is the path of a script.
pub const SCRIPT: &str = "FILE";

/// The name of the option that is the number of a call.
pub const EXPLAIN: &str = "explain";

/// What the program is asked to do.
#[derive(Debug, Drop)]
pub enum Task<'a> {
    /// `mvo format DIR`: a new store in a folder.
    Format(&'a str),
    /// `mvo run [--keep]`: a script from standard input, over a fresh store in memory, and whether
    /// that is kept meanwhile.
    Run(bool),
    /// `mvo run [--keep] DIR`: the same over the store in a folder.
    RunIn(&'a str, bool),
    /// `mvo rows DIR TABLE`: the rows of a table of the store in a folder.
    Rows(&'a str, u8),
    /// `mvo dump DIR`: a script that makes the rows of the store in a folder anew.
    Dump(&'a str),
    /// `mvo check DIR`: whether the store in a folder can be opened.
    Check(&'a str),
    /// `mvo stats DIR`: what the store in a folder has, file by file.
    Stats(&'a str),
    /// `mvo keep DIR`: what is due of the files of the store in a folder.
    Keep(&'a str),
    /// `mvo work DIR --workers N [--keep] FILE..`: each file's script as a job over the store in a
    /// folder.
    Work(WorkTask<'a>),
    /// `mvo serve DIR --clients N [--no-keep] PIPES`: the lines of clients over named pipes.
    Serve(ServeTask<'a>),
    /// `mvo stops FILE`: whether a stop or a fault at any call leaves what a script was promised.
    Stops(&'a str),
    /// `mvo stops --explain N FILE`: what that call is, and what each image at it opens as.
    Explain(u64, &'a str),
}

/// The task that a command asks for with its matches, if it is one of the program's and has what
/// it needs.
pub fn task_of<'a>(name: &str, found: &ArgMatches<'a>) -> Option<Task<'a>>
    ensures task { IfSome result (IsTask name.now (rows_of (found_of found.now))) }
    ensures run { name.now ≡ codes "run" → IsSome result }
{
    match name {
        "format" => Some(Task::Format(found.get_str(FOLDER)?)),
        "run" => Some(run_of(found)),
        "rows" => {
            let folder = found.get_str(FOLDER)?;
            let table = found.get_str(TABLE)?.parse::<u8>().ok()?;
            Some(Task::Rows(folder, table))
        }
        "dump" => Some(Task::Dump(found.get_str(FOLDER)?)),
        "check" => Some(Task::Check(found.get_str(FOLDER)?)),
        "stats" => Some(Task::Stats(found.get_str(FOLDER)?)),
        "keep" => Some(Task::Keep(found.get_str(FOLDER)?)),
        "stops" => stops_of(found),
        _ => None,
    }
}

/// The task that `stops` asks for.
fn stops_of<'a>(found: &ArgMatches<'a>) -> Option<Task<'a>>
    ensures { IfSome result (IsTask (codes "stops") (rows_of (found_of found.now))) }
{
    let script = found.get_str(SCRIPT)?;
    match found.get_str(EXPLAIN) {
        Some(number) => Some(Task::Explain(number.parse::<u64>().ok()?, script)),
        None => Some(Task::Stops(script)),
    }
}
