//! The words of `mvo stops`.
ghost use Rattle.std.specs.Prelude.{◌≡◌, IfOk, false};
ghost use Rattle.clap.specs.Words.{app_of, rule_of};
ghost use Rattle.clap.specs.declared.Command.TheViews.{out-Command};
ghost use Rattle.mvo_cli.specs.Asked.{explain_rule, script_rule, stops_command};

use crate::task::{EXPLAIN, SCRIPT};
use clap::builder::ValueParser;
use clap::{Arg, Command};
use std::alloc::{AllocError, Global};

/// The word that is the path of a script.
fn script_arg<'a>(alloc: Global) -> Arg<'a>
    ensures rule { rule_of result ≡ script_rule }
    ensures local { result.global ≡ false }
{
    Arg::new(alloc, SCRIPT)
        .help("The script, which runs over a fresh store in memory")
        .required(true)
}

/// The option that is the number of a call.
fn explain_arg<'a>(alloc: Global) -> Arg<'a>
    ensures rule { rule_of result ≡ explain_rule }
    ensures local { result.global ≡ false }
{
    Arg::new(alloc, EXPLAIN)
        .long(EXPLAIN)
        .value_name("N")
        .help("Prints what this call of the device is, from 1, and what each image at it opens as")
        .value_parser(ValueParser::unsigned(1, u64::MAX))
}

/// The command that looks at what stops and faults leave.
pub fn stops_command<'a>(alloc: Global) -> Result<Command<'a>, AllocError>
    ensures app { IfOk result (λ c. app_of c ≡ stops_command) }
    ensures local { IfOk result (λ c. (out-Command c).has_globals ≡ false) }
{
    let stops = Command::new(alloc, "stops").about(
        "Looks at all that a stop or a fault at any call of a script leaves, and whether it is \
         what was promised",
    );
    let stops = stops.arg(explain_arg(alloc))?;
    stops.arg(script_arg(alloc))
}
