//! The hosts of a farm.

ghost use Rattle.std.specs.Prelude.{◌≡◌, IfOk};

use crate::bytes::Bytes;
use crate::copying::TryCopy;
use crate::items::Items;
use std::alloc::AllocError;

/// A host's name, as it was written.
#[derive(Debug, Drop)]
pub struct HostName {
    pub text: Bytes,
}

impl HostName {
    /// An equal name.
    pub fn copy(&self) -> Result<HostName, AllocError>
        ensures { IfOk result (λ made. made ≡ self.now) }
    {
        Ok(HostName {
            text: self.text.copy()?,
        })
    }
}

impl TryCopy for HostName {
    fn try_copy(&self) -> Result<HostName, AllocError> {
        self.copy()
    }
}

/// An entry of a host list: how many jobs it takes at once is its limit. A local entry is this machine,
/// reached without the network.
#[derive(Debug, Drop)]
pub struct Host {
    pub name: HostName,
    pub port: u16,
    pub limit: u8,
    pub local: bool,
}

impl Host {
    /// An equal entry.
    pub fn copy(&self) -> Result<Host, AllocError>
        ensures { IfOk result (λ made. made ≡ self.now) }
    {
        Ok(Host {
            name: self.name.copy()?,
            port: self.port,
            limit: self.limit,
            local: self.local,
        })
    }
}

impl TryCopy for Host {
    fn try_copy(&self) -> Result<Host, AllocError> {
        self.copy()
    }
}

/// The entries of a host list, in its order.
pub type HostVec = Items<Host>;

/// A host list: its entries, the number of local slots, the number of local preprocessors (which is kept
/// and printed and limits nothing), and whether jobs begin at different entries.
#[derive(Debug, Drop)]
pub struct Hosts {
    pub list: HostVec,
    pub local_slots: u8,
    pub local_cpp: u8,
    pub randomize: bool,
}
