//! The outages of each table.
ghost use Rattle.std.specs.Prelude.{◌≡◌, ◌<◌, ◌++◌, ℕ, List, OnOk};
ghost use Rattle.scenario.specs.declared.drawn.LinkOutage.{LinkOutage};
ghost use Rattle.network.specs.{Drawn.{OnTooMany, of_links, pause_of}, Ranges.{IsRhythm}, Words.{most_tables}};

use crate::add::Course;
use crate::error::DrawError;
use crate::group::{Group, LinkSet, links_between, members_among};
use crate::kind::{Kind, link_place};
use crate::network::{Burst, Cut, Pause, Replay};
use crate::outages::Drawn;
use crate::source::Source;
use crate::words::SourceWords;
use process_api::{Pid, ProcSet};
use std::slice::from_ref;

/// Says when links have outages: a table of sources.
pub(crate) trait DrawsOutages {
    /// Its numbers are in their ranges.
    ghost is_in_range: { Self → Type 0 };

    /// Its outages in a run of so many processes up to a horizon, under a seed, with so many of its kind before it.
    ghost outages: { (processes horizon seed before : ℕ) → Self → List LinkOutage };

    /// Adds the outages of this table, which has so many of its kind before it.
    fn draw(&self, before: usize, course: Course, drawn: &mut Drawn) -> Result<(), DrawError>
        requires ranges { is_in_range self.now }
        requires few { before < most_tables }
        ensures ok { OnOk result (drawn.new
            ≡ drawn.old ++ outages course.processes course.horizon course.seed before self.now) }
        ensures full { OnTooMany result
            (drawn.old ++ outages course.processes course.horizon course.seed before self.now) };
}

/// Adds the outages of links that each are a source by itself, of a table of a kind with so many before it.
fn draw_alone<S: Source>(
    source: &S,
    set: &LinkSet,
    kind: Kind,
    before: usize,
    course: Course,
    drawn: &mut Drawn,
) -> Result<(), DrawError>
    requires ranges { S.is_in_range source.now }
    requires few { before < most_tables }
    ensures ok { OnOk result (drawn.new ≡ drawn.old ++ of_links course.processes course.horizon course.seed kind before
        set.now (S.outages source.now)) }
    ensures full { OnTooMany result (drawn.old ++ of_links course.processes course.horizon course.seed kind before
        set.now (S.outages source.now)) }
{
    let links = links_between(course.alloc, &set.from, &set.to, set.both, course.processes)?;
    for link in &links {
        let stream = kind.stream(before, link_place(link));
        let mut words = SourceWords::new(course.seed, stream);
        source.draw_on(from_ref(link), course.horizon, &mut words, drawn)?;
    }
    Ok(())
}

impl DrawsOutages for Burst {
    ghost use Rattle.network.specs.{Drawn.{of_burst}, Ranges.{IsRhythm}};

    ghost is_in_range = { λ b. IsRhythm b.rhythm };

    ghost outages = { of_burst };

    #[tactic(auto, unfolding(crate::specs::Drawn::of_burst))]
    fn draw(&self, before: usize, course: Course, drawn: &mut Drawn) -> Result<(), DrawError> {
        draw_alone(
            &self.rhythm,
            &self.links,
            Kind::Burst,
            before,
            course,
            drawn,
        )
    }
}

impl DrawsOutages for Cut {
    ghost use Rattle.network.specs.{Drawn.{of_cut}, Ranges.{IsRhythm}};

    ghost is_in_range = { λ c. IsRhythm c.rhythm };

    ghost outages = { of_cut };

    #[tactic(auto, unfolding(crate::specs::Drawn::of_cut))]
    fn draw(&self, before: usize, course: Course, drawn: &mut Drawn) -> Result<(), DrawError> {
        let links = links_between(course.alloc, &self.one, &self.other, true, course.processes)?;
        let mut words = SourceWords::new(course.seed, Kind::Cut.stream(before, 0));
        self.rhythm
            .draw_on(&links, course.horizon, &mut words, drawn)
    }
}

impl Pause {
    /// Adds the outages of a process that pauses, of this table, which has so many of its kind before it.
    fn draw_of(
        &self,
        before: usize,
        p: Pid,
        course: Course,
        drawn: &mut Drawn,
    ) -> Result<(), DrawError>
        requires rhythm { IsRhythm self.now.rhythm }
        requires few { before < most_tables }
        ensures ok { OnOk result (drawn.new
            ≡ drawn.old ++ pause_of course.processes course.horizon course.seed before self.now p) }
        ensures full { OnTooMany result
            (drawn.old ++ pause_of course.processes course.horizon course.seed before self.now p) }
    {
        let mut own = ProcSet::new();
        own.insert(p);
        let n = course.processes;
        let links = links_between(course.alloc, &Group::Members(own), &Group::All, false, n)?;
        let stream = Kind::Pause.stream(before, u64::from(p.number()) - 1);
        let mut words = SourceWords::new(course.seed, stream);
        self.rhythm
            .draw_on(&links, course.horizon, &mut words, drawn)
    }
}

impl DrawsOutages for Pause {
    ghost use Rattle.network.specs.{Drawn.{of_pause}, Ranges.{IsRhythm}};

    ghost is_in_range = { λ p. IsRhythm p.rhythm };

    ghost outages = { of_pause };

    fn draw(&self, before: usize, course: Course, drawn: &mut Drawn) -> Result<(), DrawError> {
        let pausing = members_among(course.alloc, &self.processes, course.processes)?;
        for p in &pausing {
            self.draw_of(before, *p, course, drawn)?;
        }
        Ok(())
    }
}

impl DrawsOutages for Replay {
    ghost use Rattle.network.specs.{Drawn.{of_replay}, Ranges.{IsReplay}};

    ghost is_in_range = { IsReplay };

    ghost outages = { of_replay };

    #[tactic(auto, unfolding(crate::specs::Drawn::of_replay))]
    fn draw(&self, before: usize, course: Course, drawn: &mut Drawn) -> Result<(), DrawError> {
        draw_alone(self, &self.links, Kind::Replay, before, course, drawn)
    }
}
