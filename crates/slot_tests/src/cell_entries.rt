//! Shared slots of sixteen entries, and a pass that is lent.
ghost use Rattle.std.specs.Prelude.{◌≡◌, false, [], ◌∷◌, Some};
ghost use Rattle.slot_table.specs.Grants.{host_of, job_of};
ghost use Rattle.slot_table.specs.History.{holding, outstanding};
ghost use Rattle.farm_cell.specs.Passes.{IsPassOf, limits_of, mine_of};
ghost use Rattle.farm_cell.specs.Ends.{IsNumbered};

use crate::cell_calls::{limits_of, take};
use crate::same::same;
use farm_cell::{Cell, Held, Pass};
use slot_table::{Grant, Grants, Limits, Mask, SlotState, Take};
use std::process::Abort;
use std::sync::Wait;
use std::test::Fail;
use std::thread;

/// Gives the one slot back that the caller holds, as of a host that failed.
fn fail<R: Wait + Abort>(
    rt: &R,
    cell: &Cell<16, 34>,
    pass: &mut Pass,
    _caller: u32,
    grant: Grant,
    until: u64,
    limits: &Limits<16>,
)
    requires pass { IsNumbered cell.now _caller pass.old }
    requires limits { limits.now ≡ limits_of cell.now }
    requires one { outstanding (mine_of pass.old) ≡ holding _caller (job_of grant) (Some (host_of grant)) ∷ [] }
    ensures pass { IsNumbered cell.now _caller pass.new }
    ensures none { outstanding (mine_of pass.new) ≡ [] }
{
    let host = grant.host();
    assert!(rt; host < 16);
    assert!(rt; !limits.local[host as usize]);
    cell.give_bad(rt, pass, grant, until);
}

/// Takes a slot of each entry, and gives it back as of a host that failed.
fn fail_at_each<R: Wait + Abort>(
    rt: &R,
    cell: &Cell<16, 34>,
    pass: &mut Pass,
    caller: u32,
    limits: &Limits<16>,
)
    requires pass { IsNumbered cell.now caller pass.old }
    requires limits { limits.now ≡ limits_of cell.now }
    requires none { outstanding (mine_of pass.old) ≡ [] }
    ensures pass { IsNumbered cell.now caller pass.new }
    ensures none { outstanding (mine_of pass.new) ≡ [] }
{
    for host in 0..16 {
        let grant = take(rt, cell, pass, caller, host, host);
        fail(
            rt,
            cell,
            pass,
            caller,
            grant,
            u64::MAX - u64::from(host),
            limits,
        );
    }
}

fn expect_words<R: Abort>(rt: &R, state: &SlotState<16>) {
    same(rt, &state.held, &[0; 16], &"held");
    for host in 0..16usize {
        same(rt, &state.until[host], &(u64::MAX - host as u64), &host);
    }
}

#[test]
fn sixteen_entries_keep_their_words(rt: HostRuntime) -> Result<(), Fail> {
    let limits = limits_of(255, 16, 16);
    assert!(rt; limits.are_valid());
    let (cell, mut passes) = Cell::new(&rt, rt.alloc(), limits, 1)?;
    thread::for_each_mut(
        &rt,
        passes.as_mut_slice(),
        1,
        &|caller, pass| { fail_at_each(&rt, &cell, pass, caller as u32, &limits) },
    );
    let (slots, _pass) = cell.close(&rt, passes);
    expect_words(&rt, &slots.state);
    Ok(())
}

/// Draws a job, and takes a slot of the first entry and a local one and gives each back.
fn work_once<G: Grants>(rt: &impl Abort, grants: &mut G)
    requires ready { G.ready grants.old }
    requires shared { G.alone ≡ false }
    ensures ready { G.ready grants.new }
    ensures follows { G.follows grants.old grants.new }
{
    let _job = grants.draw();
    match grants.take(0, Mask::all(1), 5) {
        Take::Got(grant) => grants.give(grant),
        Take::Full | Take::Down => panic!(rt; "no slot"),
    }
    match grants.take_local(0) {
        Some(grant) => grants.give_local(grant),
        None => panic!(rt; "no local slot"),
    }
}

/// Lends the pass to grants, and looks with it afterwards.
fn lend<R: Wait + Abort>(rt: &R, cell: &Cell<16, 34>, pass: &mut Pass)
    requires { IsPassOf cell.now pass.old }
    ensures { IsPassOf cell.now pass.new }
{
    let mut held = Held::new(rt, cell, pass);
    work_once(rt, &mut held);
    let state = cell.load(rt, pass).state;
    same(rt, &(state.next, state.local_held), &(1, 0), &"next");
    same(rt, &state.held, &[0; 16], &"held");
}

#[test]
fn a_lent_pass_comes_back(rt: HostRuntime) -> Result<(), Fail> {
    let limits = limits_of(1, 1, 1);
    assert!(rt; limits.are_valid());
    let (cell, mut passes) = Cell::new(&rt, rt.alloc(), limits, 1)?;
    thread::for_each_mut(
        &rt,
        passes.as_mut_slice(),
        1,
        &|_, pass| { lend(&rt, &cell, pass) },
    );
    Ok(())
}
