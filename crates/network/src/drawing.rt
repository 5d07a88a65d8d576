//! All outages of a network.
ghost use Rattle.std.specs.{Prelude.{◌≡◌, ◌≤◌, ◌++◌, length, OnOk, IfOk}, List.{All}};
ghost use Rattle.process_api.specs.Place.{last_tick, most_processes};
ghost use Rattle.network.specs.{Drawn.{drawn_of, OnTooMany, most_outages, of_each}, Ranges.{IsNetwork}, Words.{most_tables}};

use crate::add::Course;
use crate::error::DrawError;
use crate::network::Network;
use crate::outages::Drawn;
use crate::tables::DrawsOutages;
use scenario::LinkOutage;
use std::alloc::Global;

/// Adds the outages of all tables of a kind.
fn draw_all<T: DrawsOutages>(
    tables: &[T],
    course: Course,
    drawn: &mut Drawn,
) -> Result<(), DrawError>
    requires ranges { All T.is_in_range tables.now }
    requires few { length tables.now ≤ most_tables }
    ensures ok { OnOk result (drawn.new
        ≡ drawn.old ++ of_each (T.outages course.processes course.horizon course.seed) tables.now) }
    ensures full { OnTooMany result
        (drawn.old ++ of_each (T.outages course.processes course.horizon course.seed) tables.now) }
{
    for i in 0..tables.len() {
        tables[i].draw(i, course, drawn)?;
    }
    Ok(())
}

/// The outages that a network has in a run of so many processes, up to the horizon, under a seed: of bursts, cuts,
/// pauses and replays in this order, each by its tables. Those of a table of bursts or replays stand by sender, then by
/// receiver, then by rising begin. Those of a cut, and of each process that pauses, stand by rising begin, and those of
/// one event by sender and then by receiver. It ends with [`DrawError::TooManyOutages`] as soon as there is one more
/// than 100,000.
pub fn draw(
    alloc: Global,
    network: &Network,
    processes: u16,
    horizon: u32,
    seed: u64,
) -> Result<Vec<LinkOutage>, DrawError>
    requires numbers { IsNetwork network.now }
    requires processes { processes ≤ most_processes }
    requires horizon { horizon ≤ last_tick }
    ensures ok { IfOk result (λ v. v.items ≡ drawn_of processes horizon seed network.now) }
    ensures few { IfOk result (λ v. length v.items ≤ most_outages) }
    ensures full { OnTooMany result (drawn_of processes horizon seed network.now) }
{
    let course = Course {
        alloc,
        processes,
        horizon,
        seed,
    };
    let mut drawn = Drawn::new(alloc);
    draw_all(&network.bursts, course, &mut drawn)?;
    draw_all(&network.cuts, course, &mut drawn)?;
    draw_all(&network.pauses, course, &mut drawn)?;
    draw_all(&network.replays, course, &mut drawn)?;
    Ok(drawn.into_outages())
}
