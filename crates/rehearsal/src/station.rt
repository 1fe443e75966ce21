//! The sample compiler as a station whose counts stay.

use edge_traits::{Bounds, Station, StationFault};
use farm_types::{Ran, Word};
use sample_compiler::SampleStation;
use sample_lang::FileMap;
use std::alloc::Global;

/// The sample compiler over a map of files. Its counts stay: a run that leaves more than its bounds is out of memory. No
/// run of a job of the workload does.
#[derive(Drop)]
pub struct StillStation {
    pub(crate) inner: SampleStation,
}

impl StillStation {
    ghost use Rattle.std.specs.Prelude.{◌≡◌};
    ghost use Rattle.rehearsal.specs.Devices.{compiler_files};

    /// The compiler over these files. It takes no memory.
    pub fn new(files: FileMap) -> StillStation
        ensures { compiler_files result ≡ files }
    {
        StillStation {
            inner: SampleStation::new(files),
        }
    }
}

impl Station for StillStation {
    ghost use Rattle.sample_compiler.specs.Stations.{StationRan};
    ghost use Rattle.rehearsal.specs.Devices.{compiler_files, compiler_shows};

    ghost shows = { compiler_shows };

    ghost ran = { λ s. StationRan (compiler_files s) };

    fn run(
        &mut self,
        alloc: Global,
        words: &[Word],
        input: &[u8],
        bounds: &Bounds,
    ) -> Result<Ran, StationFault> {
        match self.inner.run(alloc, words, input, bounds) {
            Ok(ran) => Ok(ran),
            Err(_) => Err(StationFault::Memory),
        }
    }
}
