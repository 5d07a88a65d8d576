//! Classes of shapes, which say what a shape shows.
ghost use Rattle.std.specs.Prelude.{◌≡◌};
ghost use Rattle.svg.specs.Document.{class_name};

/// What a shape shows. The style sheet says how it is drawn.
#[derive(Clone, Copy)]
pub enum Class {
    /// The title of a picture.
    Title,
    /// A text that names something.
    Label,
    /// A text that tells of one moment.
    Remark,
    /// The line of an axis, and its ticks.
    Axis,
    /// A thin line that guides the eye.
    Grid,
    /// The time through which a process is up.
    Life,
    /// A suspicion of the base detector.
    First,
    /// A suspicion of the detector above it.
    Second,
    /// A time through which a link loses all letters.
    Outage,
    /// A crash.
    Crash,
    /// A decision.
    Decision,
    /// A letter of a failure detector that was taken.
    Detector,
    /// A letter of the reduction that was taken.
    Reduction,
    /// A letter of a consensus algorithm that was taken.
    Consensus,
    /// A letter that was lost.
    Lost,
    /// A letter to a process that had crashed.
    Dead,
    /// A letter that is still under way at the end.
    Late,
}

impl Class {
    /// The name that the style sheet has for it.
    pub(crate) fn name(self) -> &'static str
        ensures { result.now ≡ class_name self }
    {
        match self {
            Class::Title => "title",
            Class::Label => "label",
            Class::Remark => "remark",
            Class::Axis => "axis",
            Class::Grid => "grid",
            Class::Life => "life",
            Class::First => "first",
            Class::Second => "second",
            Class::Outage => "outage",
            Class::Crash => "crash",
            Class::Decision => "decision",
            Class::Detector => "detector",
            Class::Reduction => "reduction",
            Class::Consensus => "consensus",
            Class::Lost => "lost",
            Class::Dead => "dead",
            Class::Late => "late",
        }
    }
}
