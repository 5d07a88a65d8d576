//! Laws that follow from the definitions of base detectors.
ghost use Rattle.process_api.specs.BaseDetector.{OpensTrusting, StepsByLaws};

/// Base detectors of every kind, whatever their numbers, their state and the input. Each opens with no suspects, and in
/// each step it acts for itself alone, notes exactly the changes of its suspects, suspects other processes alone, and
/// does little. All that stands above a base detector rests on these laws, and not on the definition of any kind.
pub fn law_base_detectors()
    ensures opens { OpensTrusting }
    ensures steps { StepsByLaws }
{}
