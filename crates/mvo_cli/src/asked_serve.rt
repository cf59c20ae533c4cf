ghost use Rattle.std.specs.Prelude.{◌≡◌, codes, false, IfOk, IfSome};
ghost use Rattle.clap.specs.Words.{app_of, found_of, rows_of, rule_of};
ghost use Rattle.clap.specs.declared.Command.TheViews.{out-Command};
ghost use Rattle.mvo_cli.specs.Asked.{clients_rule, no_keep_rule, pipes_rule, serve_command};
ghost use Rattle.mvo_cli.specs.Tasks.{IsTask};

use crate::asked::with_folder;
use crate::asked_run::is_true;
use crate::asked_work::count_in;
use crate::serve_task::ServeTask;
use crate::task::{FOLDER, Task};
use clap::builder::ValueParser;
use clap::{Arg, ArgAction, ArgMatches, Command};
use std::alloc::{AllocError, Global};

/// The name of the command that serves clients.
pub const SERVE: &str = "serve";

/// The name of the word that says how many clients there may be at once.
pub const CLIENTS: &str = "clients";

/// The name of the option that leaves what is due undone.
pub const NO_KEEP: &str = "no-keep";

/// The name of the word that is the folder of the pipes.
pub const PIPES: &str = "PIPES";

/// The number of clients.
fn clients_arg<'a>(alloc: Global) -> Arg<'a>
    ensures rule { rule_of result ≡ clients_rule }
    ensures local { result.global ≡ false }
{
    Arg::new(alloc, CLIENTS)
        .long(CLIENTS)
        .value_name("N")
        .help("How many clients there may be at once, 1 to 64")
        .required(true)
        .value_parser(ValueParser::signed(1, 64))
}

/// Whether what is due is left undone.
fn no_keep_arg<'a>(alloc: Global) -> Arg<'a>
    ensures rule { rule_of result ≡ no_keep_rule }
    ensures local { result.global ≡ false }
{
    Arg::new(alloc, NO_KEEP)
        .long(NO_KEEP)
        .help("Has no thread do what is due: flushes, checkpoints, merges, trims")
        .action(ArgAction::SetTrue)
}

/// The folder of the pipes.
fn pipes_arg<'a>(alloc: Global) -> Arg<'a>
    ensures rule { rule_of result ≡ pipes_rule }
    ensures local { result.global ≡ false }
{
    Arg::new(alloc, PIPES)
        .help("The folder with the named pipes 1.in, 1.out, 2.in and so on")
        .required(true)
}

/// The command that serves clients.
pub fn serve_command<'a>(alloc: Global) -> Result<Command<'a>, AllocError>
    ensures app { IfOk result (λ c. app_of c ≡ serve_command) }
    ensures local { IfOk result (λ c. (out-Command c).has_globals ≡ false) }
{
    let about = "Answers the lines of clients over named pipes, each in a session of its own, over \
                 the store in a folder";
    let serve = with_folder(alloc, SERVE, about, true)?;
    let serve = serve.arg(clients_arg(alloc))?;
    let serve = serve.arg(no_keep_arg(alloc))?;
    serve.arg(pipes_arg(alloc))
}

/// What the command asks for with its matches, if it has what it needs.
pub fn serve_task_of<'a>(found: &ArgMatches<'a>) -> Option<Task<'a>>
    ensures { IfSome result (IsTask (codes "serve") (rows_of (found_of found.now))) }
{
    let folder = found.get_str(FOLDER)?;
    let clients = count_in(found, CLIENTS)?;
    let keeps = !is_true(found.get_str(NO_KEEP));
    let pipes = found.get_str(PIPES)?;
    Some(Task::Serve(ServeTask {
        folder,
        clients,
        keeps,
        pipes,
    }))
}
