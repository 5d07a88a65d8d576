//! What a caller has of the laws of base detectors.
ghost use Rattle.std.specs.Prelude.{◌≡◌, ℕ, false};
ghost use Rattle.std.specs.FinSet as set;
ghost use Rattle.process_api.specs.{Detector.{DetectorState, opening_detector, suspected_by, step_detector}, Place.{Place}, declared.{message.StepInput.{StepInput as Input}, numbers.DetectorNumbers.{DetectorNumbers as Numbers}}};

use process_api::law_base_detectors;

/// Whatever its kind, a detector opens with trust in its own process, and no step takes that away.
fn trusts_itself()
    ensures opens { (place : Place) (numbers : Numbers)
        → set.contains (suspected_by place (opening_detector numbers)) place.own ≡ false }
    ensures stays { (place : Place) (s : DetectorState) (now : ℕ) (input : Input)
        → set.contains (suspected_by place s) place.own ≡ false
        → set.contains (suspected_by place (step_detector place s now input).state) place.own ≡ false }
{
    law_base_detectors();
}

#[test]
fn nobody_suspects_itself(_rt: HostRuntime) {
    trusts_itself();
}
