// The entries of the lists that devices show of their past.
use farm_types::{Bytes, HostName, PlacedWords, Ran};

/// One connection with a host, from its dial to its end. `faults` counts those of its link; a dial that failed is an entry with `dialed` false.
#[derive(Drop)]
pub struct Exchange {
    pub host: HostName,
    pub port: u16,
    pub dialed: bool,
    pub sent: Bytes,
    pub given: Bytes,
    pub ended: bool,
    pub stopped: bool,
    pub faults: u64,
}

/// One run of a program that went well.
#[derive(Drop)]
pub struct Run {
    pub words: PlacedWords,
    pub input: Bytes,
    pub ran: Ran,
}

/// One file that was put.
#[derive(Drop)]
pub struct Put {
    pub path: Bytes,
    pub bytes: Bytes,
}

/// One file that was fetched.
#[derive(Drop)]
pub struct Fetch {
    pub path: Bytes,
    pub bytes: Bytes,
}

/// One connection that a door took in, from its accept to its end.
#[derive(Drop)]
pub struct Visit {
    pub given: Bytes,
    pub sent: Bytes,
    pub ended: bool,
    pub stopped: bool,
    pub faults: u64,
}
