//! What a word of a host list means.

use farm_types::Host;

/// What a word of a host list means.
#[derive(Debug, Drop)]
pub enum Meaning {
    /// A host.
    Entry(Host),
    /// `--localslots=N`: how many jobs run on this machine at once.
    LocalSlots(u8),
    /// `--localslots_cpp=N`: how many preprocessors run on this machine at once.
    LocalCpp(u8),
    /// `--randomize`: jobs begin at different entries.
    Randomize,
}
