//! The facts that are looked at in a point's first run.
ghost use Rattle.scenario_record.specs.Ranges.{AreInRange, AreInRange-prop};

use process_api::DetectorNumbers;

/// What is looked at of a point's first run.
#[derive(Clone, Copy)]
pub(crate) struct FirstRun {
    /// The numbers of the detectors.
    pub detector: DetectorNumbers,
    /// The tick at which the run ends.
    pub horizon: u32,
    /// How many processes it has, 1 to 256.
    pub processes: u16,
    /// Whether letters between some of them go by the table `link`.
    pub uses_link: bool,
    ghost numbers: { AreInRange detector } by { AreInRange-prop detector },
}
