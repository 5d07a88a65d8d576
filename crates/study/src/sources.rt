//! The files of a study.
ghost use Rattle.std.specs.Prelude.{◌≡◌, None, IfOk};
ghost use Rattle.{toml.specs.View.{table_view}, study.specs.Sources.{sources_of}};

use std::alloc::AllocError;
use toml::Table;

/// The files of a study, as TOML has them.
#[derive(Drop)]
pub struct Sources {
    /// The scenario's file.
    pub scenario: Table,
    /// The network's file, where there is one.
    pub network: Option<Table>,
}

/// A copy of a file's table.
fn copy_of_file(file: &Table) -> Result<Table, AllocError>
    ensures { IfOk result (λ t. table_view t ≡ table_view file.now) }
{
    file.clone()
}

impl Sources {
    /// The files with the scenario's alone.
    pub fn of_scenario(scenario: Table) -> Sources
        ensures { sources_of result ≡ record { scenario = table_view scenario; network = None } }
    {
        Sources {
            scenario,
            network: None,
        }
    }

    /// A copy of the files.
    pub fn copy(&self) -> Result<Sources, AllocError>
        ensures { IfOk result (λ s. sources_of s ≡ sources_of self.now) }
    {
        let scenario = copy_of_file(&self.scenario)?;
        let network = match &self.network {
            Some(network) => Some(copy_of_file(network)?),
            None => None,
        };
        Ok(Sources { scenario, network })
    }
}
