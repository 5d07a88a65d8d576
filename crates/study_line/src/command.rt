//! The command line, with its help.
ghost use Rattle.{std.specs.Prelude.{Some}, clap.specs.Words.{App, Rule, with_rule, with_subcommand}};
ghost use Rattle.study_line.specs.Inside.Private.{HasRule, Makes};
ghost use Rattle.study_line.specs.Commands.{repeated_rule, check_app, draw_app, letters_app, option_rule, path_rule, point_rule, run_rule, show_app, study_app, sweep_app, threads_rule, tick_rule, whole_app, with_grid, with_path};

use crate::version::version_line;
use clap::builder::ValueParser;
use clap::{Arg, ArgAction, Command, value_parser};
use std::alloc::{AllocError, Global};

const ABOUT: &str = "Runs a scenario under many settings and adds up what its detectors did.

A study has points, one for each combination of the values that are varied. Each point has a run for each seed, with \
values that are dealt to the seeds in turn; where values are set over all seeds, each combination of these has such \
runs. `sweep` prints a table with a row for each point and layer of detectors, in which the measures of all its runs \
are added up, or with one for each run, and `show` prints the scenario of one run.

Of one scenario as it stands, or of every run of a study, `check` says where it breaks a rule, and why. `letters` \
prints the letters of a scenario's run, and `draw` draws a picture of it.";

const EXAMPLE: &str = "Example:
  fdstudy check examples/cluster_5.toml
  fdstudy letters examples/one_crash.toml
  fdstudy draw examples/one_crash.toml --as suspicions > one_crash.svg
  fdstudy sweep examples/cluster_5.toml --seeds 1..=20 --vary detector.timeout=150,300,600 \\
      --deal 'crash[1].at=30000..=30075:25' --columns runs,mistakes,undetected,detection_p50,detection_max
  fdstudy show examples/cluster_5.toml --seeds 1..=20 --vary detector.timeout=150,300,600 \\
      --deal 'crash[1].at=30000..=30075:25' --point 2 --run 7

Exit status: 0 done, 1 file, picture or the scenario of a run refused, 2 command line refused, 3 run failed, 4 writing \
failed.";

const CHECK: &str =
    "Reads a scenario file, or all scenarios of a study, and prints its size, or where it breaks a rule and why";

const CHECK_EXAMPLE: &str = "Example:
  fdstudy check - < examples/cluster_5.toml
  fdstudy check examples/cluster_5.toml --seeds 1..=20 --deal 'crash[1].at=30000..=30075:25'

Of an accepted file the processes, the horizon and an estimate of a run are printed. A refused file ends with status \
1 and one line on standard error. With the options of a study, which are those of `sweep`, the scenario of each of its \
runs is looked at, and none is run; without --seeds there can be none of the others.";

const LETTERS: &str = "Prints the letters of a scenario's run, one row for each";

const LETTERS_EXAMPLE: &str = "Example:
  fdstudy letters examples/one_crash.toml

A row tells when a letter was sent, from whom to whom, its number on that link, its kind, when it is due, and what \
became of it: `taken`, `lost` by its link, `dead` where its receiver had crashed, or `late` where it is due at the \
horizon or after. A run of more entries than the scenario's limit ends with status 3 and prints nothing.";

const DRAW: &str = "Draws a picture of a scenario's run, as SVG on standard output";

const DRAW_EXAMPLE: &str = "Example:
  fdstudy draw examples/one_crash.toml --as suspicions > one_crash.svg
  fdstudy draw examples/cluster_5.toml --as suspicions --from 30000 --until 31000 > crash.svg
  fdstudy draw examples/cluster_5.toml --as letters --from 30000 --until 30030 --of 2,3 > letters.svg

In the picture of suspicions each process has a row for itself, with its crash and its decision, and one for each \
other process, with a bar for each stretch of ticks through which it suspects it. In that of letters each process \
has a line, and each letter that is sent at these ticks goes from its sender's line to its receiver's. At most 16 \
processes and 2000 letters are drawn; more, or ticks that aren't those of the run, end with status 1. A run of more \
entries than the scenario's limit ends with status 3. Nothing is printed then.";

const SHOW: &str = "Prints the scenario file of one run of a study";

const SHOW_EXAMPLE: &str = "Example:
  fdstudy show examples/cluster_5.toml --seeds 1..=20 --deal 'crash[1].at=30000..=30075:25' --point 1 --run 7 \\
      | fdbench list -

The options that make the study are those of `sweep`. Comments of the file aren't printed.";

const SWEEP: &str =
    "Runs a study and prints its table, a row for each point or run and layer of detectors";

const SWEEP_EXAMPLE: &str = "Example:
  fdstudy sweep examples/cluster_5.toml --seeds 1..=20 --vary detector.timeout=150,300,600 --vary link.loss=0,10 \\
      --deal 'crash[1].at=30000..=30075:25' --columns runs,mistakes,undetected,detection_p50,detection_max

A KEY is a key of the scenario file by its path: `horizon`, `detector.timeout`, `link.loss`, `crash[1].at` for the \
first table of an array, `crash[*].at` for all of them; not `seed`. A VALUE is an integer, a text, or a range of \
integers A..=B or A..=B:STEP. Keys that change together are written KEY,KEY=VALUE:VALUE,.. with a value for each in \
turn. The values of a key that the file has give way to these; a key that it lacks is added.

The combinations of the values of --deal are dealt to the seeds in turn, so that each run has a seed of its own; how \
many seeds there are must be a multiple of how many combinations there are. The values of --over copy each seed's \
letters: runs that share a seed share the fates of all letters, so they are no independent evidence.

What is printed depends neither on the threads nor on the shards: the outputs of all shards, one after the other, are \
that of the whole study. Before the first run standard error has a line for each thing that may mislead: detectors \
that can suspect nobody before the horizon, dealt crash ticks that leave a part of the period out, varied keys of \
`link` where every pair has a link of its own, and outages of the file that all runs share.

A row begins with the keys of --vary, and with `--each run` with those of --over and --deal too, `seed` and `run`. The \
other columns tell of the runs of the row that have the layer, and are empty where there is nothing to tell:

  pairs                     the group of pairs that the row counts, as --pairs says it; only with --pairs [word]
  layer                     which detectors: 1, those of the base layer, or 2, the output of the reduction [number]
  runs                      runs that have the layer [runs]
  limited                   those that passed their limit; they count in no other column [runs]
  entries                   entries of the traces [entries]
  sent                      letters that were sent [letters]
  lost                      letters that were lost by their links [letters]
  pair_ticks                how long pairs were watched, over all pairs that count [ticks]
  mistakes                  suspicions of a process by another before either crashed [suspicions]
  mistake_ticks             how long these lasted, up to the first crash of the two [ticks]
  mistake_recurrence        pair_ticks over mistakes, rounded down: the mean time between two of a pair [ticks]
  mistaken_ppm              a million times mistake_ticks over pair_ticks, rounded down [millionths]
  mistakes_squared_sum      the square of a run's mistakes, added up over the runs [suspicions squared]
  runs_with_mistakes        runs with a mistake [runs]
  mistakes_error            the standard error of mistakes over the runs [suspicions]
  recurrence_sum            from the start of a mistake to that of the pair's next one, added up [ticks]
  recurrence_count          how many these are [number]
  duration_sum              from the start of a mistake to its end, added up [ticks]
  duration_count            how many these are [number]
  duration_p99              the 99th percentile of these [ticks]
  duration_max              the longest of these [ticks]
  good_sum                  from the end of a mistake to the start of the pair's next one, added up [ticks]
  good_count                how many these are [number]
  detections                pairs of which one detected the crash of the other [pairs]
  undetected                pairs of which one was to detect the crash of the other and didn't [pairs]
  at_once                   detections that took 0 ticks: the suspicion had begun by the crash [pairs]
  detection_sum             from a crash to its detection, added up [ticks]
  detection_p50             the 50th percentile of these, those that didn't come as the longest [ticks]
  detection_p90             the 90th percentile of the same [ticks]
  detection_p99             the 99th percentile of the same [ticks]
  detection_max             the longest of those that came [ticks]
  detection_bound           no detection on layer 1 can take longer; none where one may be missing [ticks]
  strong_completeness       runs in which from some tick on all correct processes suspect all crashed ones [runs]
  weak_completeness         runs in which from some tick on each crashed process is suspected by a correct one [runs]
  strong_accuracy           runs in which nobody is suspected before its crash [runs]
  weak_accuracy             runs in which some correct process is never suspected [runs]
  eventual_strong_accuracy  runs in which from some tick on no correct process suspects a correct one [runs]
  eventual_weak_accuracy    runs in which from some tick on no correct process suspects one that is correct [runs]
  to_decide                 correct processes, in runs with an algorithm [processes]
  decided                   those of them that decided a value [processes]
  decision_tick_sum         the ticks of these decisions, added up [ticks]
  decision_tick_max         the last of these ticks [tick]
  all_decided               runs in which each correct process decided, one at least [runs]
  last_decision_p50         the 50th percentile of a run's last decision, those where one is missing last [tick]
  last_decision_p90         the 90th percentile of the same [tick]
  last_decision_p99         the 99th percentile of the same [tick]
  last_decision_max         the greatest of those that came [tick]
  rounds_p50                the 50th percentile of a run's greatest round [rounds]
  rounds_p99                the 99th percentile of the same [rounds]
  rounds_max                the greatest of them [rounds]
  disagreements             runs in which two processes decided different values [runs]
  mistake_run               the first run of the point with a mistake [number of the run]
  detection_max_run         the first run of the point with a detection of detection_max [number of the run]
  disagreement_run          the first run of the point with a disagreement [number of the run]";

const PATH: &str = "The scenario file, of at most 8388608 bytes; `-` is standard input";

const NETWORK: &str =
    "A network file that is laid over the scenario: what its links do, and bursts, cuts, pauses and \
records of losses, which each seed draws anew; of at most 8388608 bytes, `-` is standard input";

const SET: &str =
    "A key with the value that it has in all runs, any value of TOML, as 'proposals=[1,2,3]' or \
'detector={kind=\"freshness\",eta=100,delta=50}', which takes the place of the whole table; may be there several times";

const SEEDS: &str = "The seeds of each point's runs, from A to B";

const VARY: &str =
    "A key with the values that make the points: all combinations, the last key varying fastest";

const OVER: &str =
    "A key with values that copy each seed's letters: with each of them all seeds are run, and runs \
that share a seed share the fates of all letters, so they are no independent evidence";

const DEAL: &str =
    "A key with values that are dealt to the seeds in turn, so that each run has a seed of its own; \
several such keys by their combinations, as points";

const POINT: &str = "Which point, from 1, in the order of the table's rows";

const RUN: &str =
    "Which run of the point, from 1: for each combination of the values of --over all seeds";

const SHARD: &str =
    "Only the K-th of N consecutive blocks of the points, K from 1 [default: all points]";

const COLUMNS: &str =
    "The columns that are printed, by their names, in the order that is wanted [default: all]";

const EACH: &str =
    "What has a row: each `point`, with its runs added up, or each `run` [default: point]";

const PAIRS: &str =
    "A group of pairs that has rows of its own, of its observers and their subjects: each a number or A..=B, several \
joined by `+`, as 1..=4:5..=7+5..=7:1..=4; may be there several times [default: all pairs in one row]";

const PICTURE: &str =
    "Which picture: `suspicions`, who suspects whom, or `letters`, what went from whom to whom";

const FROM: &str = "The first tick that is drawn [default: 0]";

const UNTIL: &str =
    "The tick before which the picture ends, at most the scenario's horizon [default: the horizon]";

const OF: &str =
    "Processes whose letters alone are drawn, those sent and those received [default: all letters]";

const THREADS: &str =
    "How many threads share the runs, 1 to 64 [default: as many as there are processors]";

/// A command that was made, unless memory was refused.
type Made<'a> = Result<Command<'a>, AllocError>;

/// A command with one argument more.
fn with_argument<'a>(command: Made<'a>, argument: Arg<'a>) -> Made<'a>
    ensures { (app : App) (rule : Rule) → HasRule rule argument.entry → Makes app command.entry
        → Makes (with_rule app rule) result }
{
    let command = command?;
    command.arg(argument)
}

/// A command with one subcommand more.
fn with_command<'a>(command: Made<'a>, added: Made<'a>) -> Made<'a>
    ensures { (app sub : App) → Makes app command.entry → Makes sub added.entry
        → Makes (with_subcommand app sub.top) result }
{
    let command = command?;
    let added = added?;
    command.subcommand(added)
}

/// The scenario file.
fn path_argument<'a>(alloc: Global) -> Arg<'a>
    ensures { HasRule path_rule result }
{
    Arg::new(alloc, "path")
        .value_name("SCENARIO")
        .help(PATH)
        .required(true)
}

/// An option that takes a value, which may have to be there.
fn option<'a>(alloc: Global, name: &'a str, value: &'a str, help: &'a str, needed: bool) -> Arg<'a>
    ensures { HasRule (record (option_rule name.now) { required = needed }) result }
{
    Arg::new(alloc, name)
        .long(name)
        .value_name(value)
        .help(help)
        .required(needed)
}

/// An option that takes a value that a parser takes.
fn parsed_option<'a>(
    alloc: Global,
    name: &'a str,
    value: &'a str,
    help: &'a str,
    values: ValueParser<'a>,
) -> Arg<'a>
    ensures { HasRule (record (option_rule name.now) { parser = Some values.entry }) result }
{
    option(alloc, name, value, help, false).value_parser(values)
}

/// An option that may be there several times.
fn repeated_option<'a>(alloc: Global, name: &'a str, value: &'a str, help: &'a str) -> Arg<'a>
    ensures { HasRule (repeated_rule name.now) result }
{
    option(alloc, name, value, help, false).action(ArgAction::Append)
}

/// An option for axes, which may be there several times.
fn axis_option<'a>(alloc: Global, name: &'a str, help: &'a str) -> Arg<'a>
    ensures { HasRule (repeated_rule name.now) result }
{
    repeated_option(alloc, name, "KEY=VALUE,..", help)
}

/// The option for the point.
fn point_option<'a>(alloc: Global) -> Arg<'a>
    ensures { HasRule point_rule result }
{
    parsed_option(alloc, "point", "K", POINT, value_parser!(u64).range(1..)).required(true)
}

/// The option for the run.
fn run_option<'a>(alloc: Global) -> Arg<'a>
    ensures { HasRule run_rule result }
{
    parsed_option(alloc, "run", "J", RUN, value_parser!(u64).range(1..)).default_value("1")
}

/// The option for the number of threads.
fn threads_option<'a>(alloc: Global) -> Arg<'a>
    ensures { HasRule threads_rule result }
{
    let values = value_parser!(u64).range(1..=64);
    parsed_option(alloc, "threads", "N", THREADS, values)
}

/// An option for a tick, of 32 bits.
fn tick_option<'a>(alloc: Global, name: &'a str, help: &'a str) -> Arg<'a>
    ensures { HasRule (tick_rule name.now) result }
{
    let values = value_parser!(u64).range(0..=4294967295);
    parsed_option(alloc, name, "T", help, values)
}

/// A command that takes a scenario file, and perhaps a network file and what is set in them.
fn path_command<'a>(alloc: Global, name: &'a str, about: &'a str, example: &'a str) -> Made<'a>
    ensures { Makes (with_path name.now) result }
{
    let command = Command::new(alloc, name).about(about).after_help(example);
    let command = with_argument(Ok(command), path_argument(alloc));
    let command = with_argument(command, option(alloc, "network", "FILE", NETWORK, false));
    with_argument(command, repeated_option(alloc, "set", "KEY=VALUE", SET))
}

/// A command that takes a scenario file and the options that say which runs a study has.
fn grid_command<'a>(
    alloc: Global,
    name: &'a str,
    about: &'a str,
    example: &'a str,
    needed: bool,
) -> Made<'a>
    ensures { Makes (with_grid needed (with_path name.now)) result }
{
    let command = path_command(alloc, name, about, example);
    let command = with_argument(command, option(alloc, "seeds", "A..=B", SEEDS, needed));
    let command = with_argument(command, axis_option(alloc, "vary", VARY));
    let command = with_argument(command, axis_option(alloc, "over", OVER));
    with_argument(command, axis_option(alloc, "deal", DEAL))
}

/// A command that takes a scenario file and the options that say a study.
fn study_command<'a>(
    alloc: Global,
    name: &'a str,
    about: &'a str,
    example: &'a str,
    needed: bool,
) -> Made<'a>
    ensures { Makes (study_app needed name.now) result }
{
    let command = grid_command(alloc, name, about, example, needed);
    let command = with_argument(command, option(alloc, "shard", "K/N", SHARD, false));
    let command = with_argument(command, threads_option(alloc));
    let command = with_argument(command, option(alloc, "columns", "NAME,..", COLUMNS, false));
    let command = with_argument(command, option(alloc, "each", "WHAT", EACH, false));
    with_argument(
        command,
        repeated_option(alloc, "pairs", "OBSERVERS:SUBJECTS", PAIRS),
    )
}

/// `draw SCENARIO --as PICTURE [--from T] [--until T] [--of P,Q]`
fn draw_command<'a>(alloc: Global) -> Made<'a>
    ensures { Makes draw_app result }
{
    let command = path_command(alloc, "draw", DRAW, DRAW_EXAMPLE);
    let command = with_argument(command, option(alloc, "as", "PICTURE", PICTURE, true));
    let command = with_argument(command, tick_option(alloc, "from", FROM));
    let command = with_argument(command, tick_option(alloc, "until", UNTIL));
    with_argument(command, option(alloc, "of", "P,Q", OF, false))
}

/// `show SCENARIO --seeds A..=B .. --point K [--run J]`, with the options that say which runs a study has
fn show_command<'a>(alloc: Global) -> Made<'a>
    ensures { Makes show_app result }
{
    let command = grid_command(alloc, "show", SHOW, SHOW_EXAMPLE, true);
    let command = with_argument(command, point_option(alloc));
    with_argument(command, run_option(alloc))
}

/// The command line: `check` and `sweep` with the options of a study, and `letters`, `draw` and `show`.
pub(crate) fn command<'a>(alloc: Global) -> Made<'a>
    ensures { Makes whole_app result }
{
    let named = version_line().trim_end();
    let command = Command::new(alloc, "fdstudy")
        .version(named)
        .before_help(named)
        .about(ABOUT)
        .after_help(EXAMPLE)
        .subcommand_required(true);
    let check = study_command(alloc, "check", CHECK, CHECK_EXAMPLE, false);
    let letters = path_command(alloc, "letters", LETTERS, LETTERS_EXAMPLE);
    let sweep = study_command(alloc, "sweep", SWEEP, SWEEP_EXAMPLE, true);
    let command = with_command(Ok(command), check);
    let command = with_command(command, letters);
    let command = with_command(command, draw_command(alloc));
    let command = with_command(command, show_command(alloc));
    with_command(command, sweep)
}
