//! A network laid over a scenario's table.
ghost use Rattle.std.specs.Prelude.{◌≡◌, ◌<◌, ◌≤◌, false, true, length, IfOk, IfErr};
ghost use Rattle.{toml.specs.View.{table_view}, scenario.specs.{Drawn.{with_outages}, Text.{processes_of}}};
ghost use Rattle.network.specs.{Drawn.{drawn_of, most_outages}, Ranges.{IsNetwork}};
ghost use Rattle.study.specs.Laid as spec;
ghost use Rattle.study.specs.{Inside.Private.{IsExtentOf, table_of_laid}, Laid.{Fits, IsLaidBy, CantBeLaid, IsLaid, IsUnlaid}, Placed.{is_memory}, Sources.{sources_of}};

use crate::error::PlaceError;
use crate::extent::Extent;
use crate::extent_of::{extent_of, is_second};
use crate::laid_run::LaidRun;
use crate::laid_tables::{lay_links, lay_outages};
use crate::sources::Sources;
use network::{
    DrawError, LinkOutage, Network, NetworkError, draw, laid_links, process_above, read_network,
};
use std::alloc::{AllocError, Global};
use toml::Table;

/// Why a file that is no network file can't be laid.
fn of_network(error: NetworkError) -> PlaceError
    ensures { is_memory result ≡ false → result ≡ PlaceError.Network error }
{
    match error {
        NetworkError::Memory => PlaceError::Memory(AllocError),
        error => PlaceError::Network(error),
    }
}

/// Whether a network has tables of which outages are drawn.
#[tactic(auto, unfolding(crate::specs::Laid::has_sources))]
fn has_sources(network: &Network) -> bool
    ensures { result ≡ spec.has_sources network.now }
{
    !network.bursts.is_empty()
        || !network.cuts.is_empty()
        || !network.pauses.is_empty()
        || !network.replays.is_empty()
}

/// The network of a file, where it fits the run.
fn network_over(
    alloc: Global,
    table: &Table,
    file: &Table,
    processes: u16,
) -> Result<Network, PlaceError>
    requires { processes ≡ processes_of (table_view table.now) }
    ensures ok { IfOk result (Fits (table_view table.now) (table_view file.now)) }
    ensures err { IfErr result (λ e. is_memory e ≡ false → CantBeLaid (table_view table.now) (table_view file.now) e) }
{
    let network = match read_network(alloc, file) {
        Ok(network) => network,
        Err(error) => return Err(of_network(error)),
    };
    if let Some(above) = process_above(&network, processes) {
        return Err(PlaceError::ProcessAbove(above));
    }
    if !is_second(table) && has_sources(&network) {
        return Err(PlaceError::OlderFile);
    }
    Ok(network)
}

/// The outages that a network has in a run.
fn draw_over(
    alloc: Global,
    network: &Network,
    extent: Extent,
) -> Result<Vec<LinkOutage>, PlaceError>
    requires { IsNetwork network.now }
    ensures ok { IfOk result (λ v. v.items
        ≡ drawn_of extent.processes extent.horizon extent.seed network.now) }
    ensures few { IfOk result (λ v. length v.items ≤ most_outages) }
    ensures err { IfErr result (λ e. is_memory e ≡ false → e ≡ PlaceError.TooManyOutages) }
    ensures many { IfErr result (λ e. is_memory e ≡ false
        → most_outages < length (drawn_of extent.processes extent.horizon extent.seed network.now)) }
{
    match draw(
        alloc,
        network,
        extent.processes,
        extent.horizon,
        extent.seed,
    ) {
        Ok(drawn) => Ok(drawn),
        Err(DrawError::TooManyOutages) => Err(PlaceError::TooManyOutages),
        Err(DrawError::Memory) => Err(PlaceError::Memory(AllocError)),
    }
}

/// Lays the links of a file's network over a run's table. `Ok` is what the network draws besides.
fn lay_over(
    alloc: Global,
    table: &mut Table,
    file: &Table,
    extent: Extent,
) -> Result<Vec<LinkOutage>, PlaceError>
    requires { IsExtentOf (table_view table.old) extent }
    ensures ok { IfOk result (λ v. IsLaidBy (table_view table.old) (table_view file.now)
        (with_outages v.items (table_view table.new))) }
    ensures err { IfErr result (λ e. is_memory e ≡ false
        → CantBeLaid (table_view table.old) (table_view file.now) e) }
{
    let network = network_over(alloc, table, file, extent.processes)?;
    let drawn = draw_over(alloc, &network, extent)?;
    let laid = laid_links(alloc, &network.links, extent.processes).map_err(PlaceError::Memory)?;
    lay_links(alloc, table, &laid)?;
    Ok(drawn)
}

impl LaidRun {
    /// A run over whose table nothing is laid.
    #[tactic(auto, unfolding(scenario::specs::Drawn::with_outages))]
    fn of_table(alloc: Global, table: Table) -> LaidRun
        ensures { table_of_laid result ≡ table_view table }
    {
        LaidRun {
            table,
            outages: Vec::new(alloc),
        }
    }

    /// The run's table, with tables of the drawn outages.
    pub(crate) fn into_table(self, alloc: Global) -> Result<Table, PlaceError>
        ensures ok { IfOk result (λ t. table_view t ≡ table_of_laid self) }
        ensures err { IfErr result (λ e. is_memory e ≡ true) }
    {
        let LaidRun { mut table, outages } = self;
        lay_outages(alloc, &mut table, &outages)?;
        Ok(table)
    }
}

/// What the files of a run stand for: the scenario's table, over which the network's file is laid where there is one.
pub(crate) fn laid(alloc: Global, sources: Sources) -> Result<LaidRun, PlaceError>
    ensures ok { IfOk result (λ r. IsLaid (sources_of sources) (table_of_laid r)) }
    ensures err { IfErr result (λ e. is_memory e ≡ false → IsUnlaid (sources_of sources) e) }
{
    let Sources {
        mut scenario,
        network,
    } = sources;
    let Some(file) = &network else {
        return Ok(LaidRun::of_table(alloc, scenario));
    };
    let Some(extent) = extent_of(&scenario) else {
        return Ok(LaidRun::of_table(alloc, scenario));
    };
    let outages = lay_over(alloc, &mut scenario, file, extent)?;
    Ok(LaidRun {
        table: scenario,
        outages,
    })
}
