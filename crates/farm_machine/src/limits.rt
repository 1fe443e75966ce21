//! The limits that a host list sets.
ghost use Rattle.std.specs.Prelude.{◌≡◌, ℕ, ◌<◌, ◌≤◌, false, length, slice_index, slice_index_or};
ghost use Rattle.farm_types.specs.Limits.{hosts_max};
ghost use Rattle.farm_machine.specs.Jobs.{AreLimitsOf, no_host_entry};

use farm_types::{Host, Hosts};
use slot_table::Limits;

/// How many jobs each entry may work at.
fn each_limit(list: &[Host]) -> [u8; 16]
    requires { length list.now ≤ hosts_max }
    ensures { (place : ℕ) → place < length list.now → slice_index result place ≡ (slice_index_or list.now place no_host_entry).limit }
{
    let mut limit = [0u8; 16];
    for place in 0..list.len() {
        limit[place] = list[place].limit;
    }
    limit
}

/// Whether each entry is this machine.
fn each_local(list: &[Host]) -> [bool; 16]
    requires { length list.now ≤ hosts_max }
    ensures { (place : ℕ) → place < length list.now → slice_index_or result place false ≡ (slice_index_or list.now place no_host_entry).local }
{
    let mut local = [false; 16];
    for place in 0..list.len() {
        local[place] = list[place].local;
    }
    local
}

/// The limits that a host list sets, for this many jobs.
pub fn limits_of(hosts: &Hosts, jobs: u32) -> Limits<16>
    requires entries { length hosts.now.list ≤ hosts_max }
    ensures hosts { AreLimitsOf result hosts.now }
    ensures jobs { result.jobs ≡ jobs }
{
    let list = hosts.list.as_slice();
    Limits {
        count: list.len() as u32,
        limit: each_limit(list),
        local: each_local(list),
        local_slots: hosts.local_slots,
        jobs,
        rotate: hosts.randomize,
    }
}
