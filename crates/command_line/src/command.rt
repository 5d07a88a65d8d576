//! The command line, with its help.
ghost use Rattle.std.specs.Prelude.{◌≡◌, IfOk, codes, false};
ghost use Rattle.clap.specs.Words.{App, rule_of, with_rule};
ghost use Rattle.command_line.specs.{Commands.{Adds, IsLocal, check_app, compare_app, list_app, number, option_rule, path_rule, run_app, with_path, with_plan, with_print}, Inside.Private.{IsCommand, IsPrintOption, IsPrinting, Makes}};

use clap::builder::ValueParser;
use clap::{Arg, Command, value_parser};
use std::alloc::{AllocError, Global};

/// What can be printed.
static PRINTS: [&str; 3] = ["trace", "report", "both"];

/// The program's name and its version, which is that of the file VERSION.
const NAMED: &str = "fdbench 0.1.0";

const ABOUT: &str =
    "Compares failure detectors and consensus algorithms by simulating crash-prone processes.

A scenario file says how many processes there are, what they run, how the links between them delay and lose
letters, and who crashes when. A run takes the events of a scenario one by one, tick after tick, up to the horizon.";

const EXAMPLE: &str = "Example:
  fdbench list examples/one_crash.toml
  fdbench list examples/one_crash.toml --print trace
  fdbench run examples/one_crash.toml --workers 2 --window 2

Exit status: 0 done, 1 scenario or file refused, 2 command line refused, 3 plan or run refused, or `different`, \
4 writing
failed.";

const CHECK: &str = "Reads a scenario file and prints `ok` where it is accepted";

const CHECK_EXAMPLE: &str = "Example:
  fdbench check - < examples/one_crash.toml

A refused file ends with status 1 and one line on standard error that names the first rule that it breaks.";

const LIST: &str = "Runs a scenario by one global event list and prints what came of it";

const LIST_EXAMPLE: &str = "Example:
  fdbench list examples/one_crash.toml --print trace

A run of more entries than the scenario's limit ends with status 3 and prints nothing.";

const RUN: &str = "Runs a scenario by windows that workers share; prints what `list` prints";

const RUN_EXAMPLE: &str = "Example:
  fdbench run examples/one_crash.toml --workers 2 --window 2

A run of more entries than the scenario's limit ends with status 3. The first rows of its trace may be printed by \
then; of a report nothing is.";

const COMPARE: &str = "Runs a scenario both ways and prints `same` or `different`";

const COMPARE_EXAMPLE: &str = "Example:
  fdbench compare examples/one_crash.toml --workers 2 --window 2

Both texts of both runs are compared. `different` ends with status 3; it is proved never to come.";

const PATH: &str = "The scenario file, of at most 8388608 bytes; `-` is standard input";

const PRINT: &str =
    "What is printed: `trace`, a line for each event; `report`, verdicts, measures and decisions; or both \
[default: report]";

const WORKERS: &str = "How many workers share each window, 1 to 64";

const WINDOW: &str = "How many ticks a window has, 1 to the scenario's lookahead";

/// A command that was made, unless memory was refused.
type Made<'a> = Result<Command<'a>, AllocError>;

/// A command with one argument more.
fn with_argument<'a>(command: Made<'a>, argument: Arg<'a>) -> Made<'a>
    requires local { argument.global ≡ false }
    ensures { (app : App) → Makes app command.entry → Makes (with_rule app (rule_of argument.entry)) result }
{
    command?.arg(argument)
}

/// A command with one subcommand more.
fn with_command<'a>(command: Made<'a>, added: Made<'a>) -> Made<'a>
    requires local { IfOk command IsLocal × IfOk added IsLocal }
    ensures { IfOk result (Adds command.entry added.entry) }
{
    command?.subcommand(added?)
}

/// The scenario file.
fn path_argument<'a>(alloc: Global) -> Arg<'a>
    ensures rule { rule_of result ≡ path_rule }
    ensures local { result.global ≡ false }
{
    Arg::new(alloc, "path").value_name("PATH").help(PATH)
}

/// An option that takes a value that a parser takes.
fn option<'a>(
    alloc: Global,
    name: &'a str,
    value: &'a str,
    help: &'a str,
    values: ValueParser<'a>,
) -> Arg<'a>
    ensures rule { rule_of result ≡ option_rule name.now values.entry }
    ensures local { result.global ≡ false }
{
    Arg::new(alloc, name)
        .long(name)
        .value_name(value)
        .help(help)
        .value_parser(values)
}

/// The option that says what is printed.
fn print_option<'a>(alloc: Global) -> Arg<'a>
    ensures rule { IsPrintOption result }
    ensures local { result.global ≡ false }
{
    option(alloc, "print", "WHAT", PRINT, PRINTS.as_slice().into())
}

/// The option for the number of workers.
fn workers_option<'a>(alloc: Global) -> Arg<'a>
    ensures rule { rule_of result ≡ option_rule (codes "workers") number }
    ensures local { result.global ≡ false }
{
    option(alloc, "workers", "N", WORKERS, value_parser!(u64))
}

/// The option for the length of a window.
fn window_option<'a>(alloc: Global) -> Arg<'a>
    ensures rule { rule_of result ≡ option_rule (codes "window") number }
    ensures local { result.global ≡ false }
{
    option(alloc, "window", "N", WINDOW, value_parser!(u64))
}

/// A command that takes a scenario file.
fn path_command<'a>(alloc: Global, name: &'a str, about: &'a str, example: &'a str) -> Made<'a>
    ensures { Makes (with_path name.now) result }
{
    let command = Command::new(alloc, name).about(about).after_help(example);
    with_argument(Ok(command), path_argument(alloc))
}

/// `check PATH`
fn check_command<'a>(alloc: Global) -> Made<'a>
    ensures { Makes check_app result }
{
    path_command(alloc, "check", CHECK, CHECK_EXAMPLE)
}

/// A command with the option that says what is printed.
fn with_print_option<'a>(alloc: Global, command: Made<'a>) -> Made<'a>
    ensures { (app : App) → Makes app command.entry → IfOk result (IsPrinting (with_print app)) }
{
    with_argument(command, print_option(alloc))
}

/// `list PATH [--print WHAT]`
fn list_command<'a>(alloc: Global) -> Made<'a>
    ensures { IfOk result (IsPrinting list_app) }
{
    with_print_option(alloc, path_command(alloc, "list", LIST, LIST_EXAMPLE))
}

/// A command with the options that plan its windows.
fn with_plan_options<'a>(alloc: Global, command: Made<'a>) -> Made<'a>
    ensures { (app : App) → Makes app command.entry → Makes (with_plan app) result }
{
    let command = with_argument(command, workers_option(alloc));
    with_argument(command, window_option(alloc))
}

/// A command that takes a scenario file and the options that plan its windows.
fn plan_command<'a>(alloc: Global, name: &'a str, about: &'a str, example: &'a str) -> Made<'a>
    ensures { Makes (with_plan (with_path name.now)) result }
{
    with_plan_options(alloc, path_command(alloc, name, about, example))
}

/// `run PATH --workers N --window N [--print WHAT]`
fn run_command<'a>(alloc: Global) -> Made<'a>
    ensures { IfOk result (IsPrinting run_app) }
{
    with_print_option(alloc, plan_command(alloc, "run", RUN, RUN_EXAMPLE))
}

/// `compare PATH --workers N --window N`
fn compare_command<'a>(alloc: Global) -> Made<'a>
    ensures { Makes compare_app result }
{
    plan_command(alloc, "compare", COMPARE, COMPARE_EXAMPLE)
}

/// The command line.
pub(crate) fn command<'a>(alloc: Global) -> Made<'a>
    ensures { IfOk result IsCommand }
{
    let command = Command::new(alloc, "fdbench")
        .before_help(NAMED)
        .about(ABOUT)
        .after_help(EXAMPLE);
    let checking = with_command(Ok(command), check_command(alloc));
    let listing = with_command(checking, list_command(alloc));
    let running = with_command(listing, run_command(alloc));
    with_command(running, compare_command(alloc))
}
