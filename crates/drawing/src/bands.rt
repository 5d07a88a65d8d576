//! Bands: the ticks at which a link loses all letters.
ghost use Rattle.std.specs.Prelude.{◌≡◌, ◌++◌, ◌≤◌, IfOk, OnOk};
ghost use Rattle.drawing.specs.Suspicions.{bands, is_seen};

use crate::frame::Frame;
use crate::groups::Run;
use crate::lanes::own_top;
use crate::layout::{ROW, Ticks};
use crate::legend::sample;
use crate::row_shapes::stretch;
use process_api::Pid;
use scenario_record::Outage;
use std::alloc::{AllocError, Global};
use svg::{Class, Shape};

/// Whether an outage has one of these ticks.
fn is_seen(ticks: &Ticks, outage: &Outage) -> bool
    ensures { result ≡ is_seen ticks.now.from ticks.now.until outage.now }
{
    outage.begin < ticks.until && ticks.from < outage.until
}

/// Appends the bands of a link's outages.
pub(crate) fn push_bands(
    shapes: &mut Vec<Shape>,
    ticks: &Ticks,
    top: u32,
    outages: &[Outage],
) -> Result<(), AllocError>
    ensures { OnOk result (shapes.new.items
        ≡ shapes.old.items ++ bands ticks.now.from ticks.now.until top outages.now) }
{
    for outage in outages {
        if is_seen(ticks, outage) {
            shapes.push(stretch(ticks, Class::Outage, top, ROW, outage.begin, outage.until))?;
        }
    }
    Ok(())
}

/// What bands mean, where there is one, at a height.
pub(crate) fn outage_legend(
    alloc: Global,
    x: u32,
    y: u32,
    drawn: &[Shape],
) -> Result<Frame, AllocError>
    requires wide { x ≤ 1000 }
    requires low { y ≤ 60 }
{
    let mut legend = Frame::new(alloc);
    if !drawn.is_empty() {
        legend.push_entry(sample(Class::Outage, x, y), x + 30, y + 8, "outage")?;
    }
    Ok(legend)
}

impl Run<'_> {
    ghost use Rattle.drawing.specs.Inside.Drawn.{all_line_bands_in, line_bands_in};

    /// Appends the bands of a process: those of the links from it.
    #[tactic(auto, using(crate::proofs::Counting::one_more), unfolding(crate::specs::Inside::Drawn::link_bands))]
    fn push_line_bands(&self, shapes: &mut Vec<Shape>, sender: Pid) -> Result<(), AllocError>
        requires { sender ≤ self.now.scenario.now.processes }
        ensures { OnOk result (shapes.new.items ≡ shapes.old.items ++ line_bands_in self.now sender) }
    {
        let processes = self.scenario.processes();
        let top = own_top(processes, sender);
        for before in 0..processes {
            let receiver = Pid::after(before);
            if receiver != sender {
                push_bands(
                    shapes,
                    &self.ticks,
                    top,
                    self.scenario.outages(sender, receiver),
                )?;
            }
        }
        Ok(())
    }

    /// The bands of all processes.
    #[tactic(auto, using(crate::proofs::Counting::one_more))]
    pub fn line_bands(&self, alloc: Global) -> Result<Vec<Shape>, AllocError>
        ensures { IfOk result (λ bands. bands.items ≡ all_line_bands_in self.now) }
    {
        let mut bands = Vec::new(alloc);
        for before in 0..self.scenario.processes() {
            self.push_line_bands(&mut bands, Pid::after(before))?;
        }
        Ok(bands)
    }
}
