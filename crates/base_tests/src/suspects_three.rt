//! A detector for tests of the parts above one.
ghost use Rattle.std.specs.Prelude.{◌≡◌, ◌++◌, ◌∷◌, [], OnOk};
ghost use Rattle.process_api.specs.Answer.{to_others};

use process_api::{Action, Detector, Payload, Pid, ProcSet, StepInput, Tag, send_to, wake_after};
use std::alloc::AllocError;

/// The detector of process 1 of 3 that suspects 3 alone. It knows its start, its Beat wake and what only the reduction
/// takes, and answers `Err` to all else, and at tick 6.
#[derive(Drop)]
pub struct SuspectsThree {
    pub has_failed: bool,
}

/// Alive to 2 and 3, and the next Beat wake.
fn beat(out: &mut Vec<Action>) -> Result<(), AllocError>
    ensures { OnOk result (
        out.new.items ≡ out.old.items ++ (to_others 3 1 Payload.Alive ++ Action.Wake 5 Tag.Beat ∷ [])) }
{
    send_to(out, Pid::after(1), Payload::Alive)?;
    send_to(out, Pid::after(2), Payload::Alive)?;
    wake_after(out, 5, Tag::Beat)
}

impl Detector for SuspectsThree {
    ghost use Rattle.std.specs.Prelude.{None};
    ghost use Rattle.std.specs.FinSet as set;
    ghost use Rattle.process_api.specs.Detector.{ByTimeout};
    ghost use Rattle.process_api.specs.declared.numbers.Watch.TheVariants as watch;

    ghost lower = { λ _. record {
      place = record { own = 1; processes = 3; horizon = 10 };
      detector = ByTimeout (record { period = 5; check = 6; timeout = 7; grow = 1; watch = watch.All })
          (record { last_heard = λ q. 0; bound = λ q. 7; suspects = set.insert set.empty 3 });
      reduction = None;
    } };

    ghost has_failed = { λ s. s.has_failed };

    #[tactic(auto, unfolding(process_api::specs::React::react_lower, process_api::specs::Detector::step_detector))]
    fn take(
        &mut self,
        now: u32,
        input: &StepInput,
        out: &mut Vec<Action>,
    ) -> Result<(), AllocError> {
        if self.has_failed {
            return Err(AllocError);
        }
        self.has_failed = true;
        if now == 6 {
            return Err(AllocError);
        }
        match input {
            StepInput::Start => {
                beat(out)?;
                wake_after(out, 6, Tag::Check)?;
            }
            StepInput::Wake(Tag::Beat) => beat(out)?,
            StepInput::Wake(Tag::Share) => {}
            StepInput::Letter { payload, .. } => match payload {
                Payload::Suspects(_) => {}
                _ => return Err(AllocError),
            },
            StepInput::Wake(_) => return Err(AllocError),
        }
        self.has_failed = false;
        Ok(())
    }

    fn suspects(&self) -> ProcSet {
        let mut suspects = ProcSet::new();
        suspects.insert(Pid::after(2));
        suspects
    }
}
