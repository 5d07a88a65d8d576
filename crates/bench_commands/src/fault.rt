//! Why a run of the program ends without having done what it was asked, and how it says so.
ghost use Rattle.std.specs.Prelude.{◌≡◌, ◌^◌, ◌-◌, ◌<◌};
ghost use Rattle.{bench_commands.specs.Fault.{plan_line, run_line, scenario_line}, shell.specs.Ending.{Tells}};

use itoa::Buffer;
use process_api::RunError;
use qos_report::Outlet;
use scenario::ScenarioError;
use shell::{Failure, tell_pieces, tell_text};
use windows::PlanError;

/// Why the program did not do what it was asked.
#[derive(Drop)]
pub enum Fault {
    /// The command, the path, `--workers` or `--window` is missing.
    Form,
    /// Memory was refused while words were read.
    WordsMemory,
    /// `clap` refuses the words, as this text says.
    Words(String),
    /// A read failed.
    Unreadable,
    /// The scenario file is too long.
    TooLong,
    /// The scenario is refused.
    Scenario(ScenarioError),
    /// The plan is refused.
    Plan(PlanError),
    /// The run is refused, or writing failed.
    Run(RunError),
    /// Both ways to run the scenario wrote different texts. No line is told of it.
    Different,
}

impl Failure for Fault {
    ghost use Rattle.bench_commands.specs.{Fault.{end_of, line_of, status_of}, Inside.Statuses.{has_status}, declared.fault.Fault.TheVariants.{Run}};
    ghost use Rattle.{process_api.specs.declared.run_error.RunError.TheVariants.{Write}, std.specs.Prelude.{refl}};

    ghost status = { status_of };

    ghost line = { line_of };

    ghost end = { end_of };

    ghost unwritten = { Run Write };

    ghost is_cut = { refl };

    ghost statuses = { has_status };

    fn unwritten() -> Fault {
        Fault::Run(RunError::Write)
    }

    fn status(&self) -> u8 {
        match self {
            Fault::Form | Fault::WordsMemory | Fault::Words(_) => 2,
            Fault::Unreadable | Fault::TooLong | Fault::Scenario(_) => 1,
            Fault::Run(RunError::Write) => 4,
            Fault::Plan(_) | Fault::Run(_) | Fault::Different => 3,
        }
    }

    fn put_line<O: Outlet>(&self, faults: &mut O) {
        match self {
            Fault::Form => tell_text("fdbench: words: Form\n", faults),
            Fault::WordsMemory => tell_text("fdbench: words: Memory\n", faults),
            Fault::Words(text) => tell_text(text.as_str(), faults),
            Fault::Unreadable => tell_text("fdbench: input: unreadable\n", faults),
            Fault::TooLong => tell_text("fdbench: input: too long\n", faults),
            Fault::Scenario(error) => put_refusal(faults, error),
            Fault::Plan(error) => tell_text(line_of_plan_error(*error), faults),
            Fault::Run(error) => tell_text(line_of_run_error(*error), faults),
            Fault::Different => {}
        }
    }
}

/// Writes the line of a scenario's refusal.
fn put_refusal<O: Outlet>(faults: &mut O, error: &ScenarioError)
    requires { O.failed faults.old < 2 ^ 64 - 1 }
    ensures { Tells O.told O.failed faults.old faults.new (λ line. line ≡ scenario_line error.now) }
{
    let begin = "fdbench: scenario: ";
    match error {
        ScenarioError::BelowLookahead { from, to } => {
            let (mut from_text, mut to_text) = (Buffer::new(), Buffer::new());
            let from = from_text.format(from.number());
            let to = to_text.format(to.number());
            tell_pieces(&[begin, error.name(), " ", from, " ", to, "\n"], faults);
        }
        _ => tell_pieces(&[begin, error.name(), "\n"], faults),
    }
}

/// The line of a refusal of a plan.
fn line_of_plan_error(error: PlanError) -> &'static str
    ensures { result.now ≡ plan_line error }
{
    match error {
        PlanError::Workers => "fdbench: plan: Workers\n",
        PlanError::WindowZero => "fdbench: plan: WindowZero\n",
        PlanError::WindowTooLong => "fdbench: plan: WindowTooLong\n",
    }
}

/// The line of a refusal of a run.
fn line_of_run_error(error: RunError) -> &'static str
    ensures { result.now ≡ run_line error }
{
    match error {
        RunError::Limit => "fdbench: run: Limit\n",
        RunError::Memory => "fdbench: run: Memory\n",
        RunError::Spawn => "fdbench: run: Spawn\n",
        RunError::Write => "fdbench: run: Write\n",
    }
}
