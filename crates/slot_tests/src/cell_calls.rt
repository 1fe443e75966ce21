//! Calls on shared slots, by callers that hold one slot at most.
ghost use Rattle.std.specs.Prelude.{◌≡◌, ◌<◌, [], ◌∷◌, Some, IfSome, IfNone};
ghost use Rattle.farm_types.specs.Limits.{hosts_max};
ghost use Rattle.slot_table.specs.Grants.{host_of, job_of};
ghost use Rattle.slot_table.specs.History.{holding, outstanding};
ghost use Rattle.farm_cell.specs.Passes.{mine_of};
ghost use Rattle.farm_cell.specs.Ends.{IsNumbered};

use crate::same::same;
use farm_cell::{Cell, Pass};
use slot_table::{Grant, Limits, Mask, Take};
use std::process::Abort;
use std::sync::Wait;

/// That many remote entries with this limit, and one local slot.
pub fn limits_of(limit: u8, count: u32, jobs: u32) -> Limits<16> {
    Limits {
        count,
        limit: [limit; 16],
        local: [false; 16],
        local_slots: 1,
        jobs,
        rotate: false,
    }
}

/// Draws a job, by a caller that holds nothing.
pub fn draw<R: Wait>(rt: &R, cell: &Cell<16, 34>, pass: &mut Pass, _caller: u32) -> Option<u32>
    requires pass { IsNumbered cell.now _caller pass.old }
    requires none { outstanding (mine_of pass.old) ≡ [] }
    ensures pass { IsNumbered cell.now _caller pass.new }
    ensures none { outstanding (mine_of pass.new) ≡ [] }
{
    cell.draw(rt, pass)
}

/// Asks for a slot of an entry of the mask, by a caller that holds nothing. None if they are full.
pub fn try_take<R: Wait + Abort>(
    rt: &R,
    cell: &Cell<16, 34>,
    pass: &mut Pass,
    _caller: u32,
    job: u32,
    mask: Mask,
) -> Option<Grant>
    requires pass { IsNumbered cell.now _caller pass.old }
    requires none { outstanding (mine_of pass.old) ≡ [] }
    ensures pass { IsNumbered cell.now _caller pass.new }
    ensures one { IfSome result (λ grant. outstanding (mine_of pass.new) ≡ holding _caller (job_of grant) (Some (host_of grant)) ∷ []) }
    ensures none { IfNone result (outstanding (mine_of pass.new) ≡ []) }
{
    match cell.take(rt, pass, job, mask, 5) {
        Take::Got(grant) => Some(grant),
        Take::Full => None,
        Take::Down => panic!(rt; "the entry is left alone"),
    }
}

/// Takes a slot of this entry, which must have one.
pub fn take<R: Wait + Abort>(
    rt: &R,
    cell: &Cell<16, 34>,
    pass: &mut Pass,
    caller: u32,
    job: u32,
    host: u32,
) -> Grant
    requires pass { IsNumbered cell.now caller pass.old }
    requires none { outstanding (mine_of pass.old) ≡ [] }
    requires entry { host < hosts_max }
    ensures pass { IsNumbered cell.now caller pass.new }
    ensures one { outstanding (mine_of pass.new) ≡ holding caller (job_of result) (Some (host_of result)) ∷ [] }
{
    let taken = try_take(rt, cell, pass, caller, job, Mask { bits: 1 << host });
    let Some(grant) = taken else {
        panic!(rt; "job {job} has no slot of entry {host}");
    };
    let is = (grant.caller(), grant.job(), grant.host());
    same(rt, &is, &(caller, job, host), &"a grant");
    grant
}

/// Asks for a slot of the first entry, which must be full.
pub fn take_in_vain<R: Wait + Abort>(
    rt: &R,
    cell: &Cell<16, 34>,
    pass: &mut Pass,
    caller: u32,
    job: u32,
)
    requires pass { IsNumbered cell.now caller pass.old }
    requires none { outstanding (mine_of pass.old) ≡ [] }
    ensures pass { IsNumbered cell.now caller pass.new }
    ensures none { outstanding (mine_of pass.new) ≡ [] }
{
    match try_take(rt, cell, pass, caller, job, Mask::all(1)) {
        None => {}
        Some(_) => panic!(rt; "job {job} isn't told that the entry is full"),
    }
}

/// Gives the one slot back that the caller holds.
pub fn give<R: Wait>(rt: &R, cell: &Cell<16, 34>, pass: &mut Pass, _caller: u32, grant: Grant)
    requires pass { IsNumbered cell.now _caller pass.old }
    requires one { outstanding (mine_of pass.old) ≡ holding _caller (job_of grant) (Some (host_of grant)) ∷ [] }
    ensures pass { IsNumbered cell.now _caller pass.new }
    ensures none { outstanding (mine_of pass.new) ≡ [] }
{
    cell.give(rt, pass, grant);
}
