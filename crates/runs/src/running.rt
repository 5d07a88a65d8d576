//! The letters of a run.
ghost use Rattle.std.specs.Prelude.{◌≡◌, List, IfOk, IfErr, IsErrOf, map};
ghost use Rattle.event_list.specs.Following.{IsRefusal, IsTooLong};
ghost use Rattle.process_api.specs.{Order.{EntryRecord}, Mind.{Mind}, Place.{numbers_to}};
ghost use Rattle.scenario_record.specs.Record.{opening_mind};
ghost use Rattle.trace_laws.specs.{Setting.{setting_of}, World.{IsTrace}};
ghost use Rattle.runs.specs.Letters.{AreInOrder, AreLetters, AreInTrace, AreLostAs, AreNumbered};

use crate::book::LetterBook;
use event_list::{RunError, run_list_into};
use process_api::Process;
use reporting::Letter;
use scenario_record::Scenario;
use std::alloc::Global;

/// Runs machines by the single event list, up to the horizon, and gives the letters that they send to one another:
/// those of each step of the run, each once, in the order of the steps, which is that of the tick of sending and then
/// of the sender, and of one step in the order in which it sent them. There is one machine for each process, of process
/// 1 first, and each opens as the scenario says. Letters to oneself are left out. On each link letters are numbered
/// from 1 without a gap, and as many are lost as the entries of the trace count.
///
/// # Errors
///
/// `Limit` where the whole trace has more entries than the scenario's limit, `Memory` where memory was refused. The
/// machines are gone then, and there are no letters.
pub fn letters<M: Process>(
    alloc: Global,
    scenario: &Scenario,
    machines: Vec<M>,
) -> Result<Vec<Letter>, RunError>
    requires { map M.mind machines.items ≡ map (opening_mind scenario.now) (numbers_to scenario.now.processes) }

    ensures letters { IfOk result (λ letters. AreLetters scenario.now letters.items) }
    ensures only { IfOk result (λ letters. (others : List Letter)
        → AreLetters scenario.now others → others ≡ letters.items) }
    ensures order { IfOk result (λ letters. AreInOrder letters.items) }
    ensures trace { IfOk result (λ letters. (trace : List EntryRecord)
        → IsTrace (setting_of scenario.now) trace → AreInTrace trace letters.items) }
    ensures numbers { IfOk result (λ letters. AreNumbered letters.items) }
    ensures lost { IfOk result (λ letters. (trace : List EntryRecord)
        → IsTrace (setting_of scenario.now) trace → AreLostAs trace letters.items) }
    ensures errors { IfErr result IsRefusal }
    ensures limit { IsErrOf result RunError.Limit → IsTooLong (setting_of scenario.now) scenario.now.limit }
{
    scenario.recall_ranges();
    let mut book = LetterBook::new(alloc, scenario);
    run_list_into(alloc, scenario, machines, &mut (), &mut book)?;
    Ok(book.letters)
}
