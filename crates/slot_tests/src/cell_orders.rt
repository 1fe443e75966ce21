//! Calls of three callers in a given order, by one thread and by three.
ghost use Rattle.std.specs.Prelude.{◌≡◌, []};
ghost use Rattle.slot_table.specs.History.{outstanding};
ghost use Rattle.farm_cell.specs.Passes.{callers_of, mine_of};
ghost use Rattle.farm_cell.specs.Ends.{IsNumbered};

use crate::callers::apart;
use crate::cell_calls::{draw, give, limits_of, take, take_in_vain};
use crate::same::same;
use farm_cell::{Cell, Pass};
use slot_table::SlotState;
use std::alloc::{AllocError, Global};
use std::process::Abort;
use std::sync::Wait;
use std::sync::atomic::{AtomicU64, Ordering};
use std::test::Fail;
use std::thread;

/// Closes a cell of three callers.
fn close<R: Wait>(
    rt: &R,
    alloc: Global,
    cell: Cell<16, 34>,
    first: Pass,
    second: Pass,
    third: Pass,
) -> Result<SlotState<16>, AllocError>
    requires three { callers_of cell ≡ 3 }
    requires first { IsNumbered cell 0 first }
    requires first_none { outstanding (mine_of first) ≡ [] }
    requires second { IsNumbered cell 1 second }
    requires second_none { outstanding (mine_of second) ≡ [] }
    requires third { IsNumbered cell 2 third }
    requires third_none { outstanding (mine_of third) ≡ [] }
{
    let mut passes = Vec::with_capacity(alloc, 3)?;
    passes.push(first)?;
    passes.push(second)?;
    passes.push(third)?;
    let (slots, _pass) = cell.close(rt, passes);
    Ok(slots.state)
}

/// Draws a job, which must be this one, by a caller that holds nothing.
fn expect_drawn<R: Wait + Abort>(
    rt: &R,
    cell: &Cell<16, 34>,
    pass: &mut Pass,
    caller: u32,
    job: Option<u32>,
)
    requires pass { IsNumbered cell.now caller pass.old }
    requires none { outstanding (mine_of pass.old) ≡ [] }
    ensures pass { IsNumbered cell.now caller pass.new }
    ensures none { outstanding (mine_of pass.new) ≡ [] }
{
    let drawn = draw(rt, cell, pass, caller);
    same(rt, &drawn, &job, &caller);
}

/// Takes the slot for the caller's own job, and gives it back.
fn take_and_give<R: Wait + Abort>(rt: &R, cell: &Cell<16, 34>, pass: &mut Pass, caller: u32)
    requires pass { IsNumbered cell.now caller pass.old }
    requires none { outstanding (mine_of pass.old) ≡ [] }
    ensures pass { IsNumbered cell.now caller pass.new }
    ensures none { outstanding (mine_of pass.new) ≡ [] }
{
    let grant = take(rt, cell, pass, caller, caller, 0);
    give(rt, cell, pass, caller, grant);
}

/// One slot, three jobs and three callers.
fn play<R: Wait + Abort>(
    rt: &R,
    cell: &Cell<16, 34>,
    first: &mut Pass,
    second: &mut Pass,
    third: &mut Pass,
)
    requires first { IsNumbered cell.now 0 first.old }
    requires first_none { outstanding (mine_of first.old) ≡ [] }
    requires second { IsNumbered cell.now 1 second.old }
    requires second_none { outstanding (mine_of second.old) ≡ [] }
    requires third { IsNumbered cell.now 2 third.old }
    requires third_none { outstanding (mine_of third.old) ≡ [] }
    ensures first { IsNumbered cell.now 0 first.new }
    ensures first_none { outstanding (mine_of first.new) ≡ [] }
    ensures second { IsNumbered cell.now 1 second.new }
    ensures second_none { outstanding (mine_of second.new) ≡ [] }
    ensures third { IsNumbered cell.now 2 third.new }
    ensures third_none { outstanding (mine_of third.new) ≡ [] }
{
    expect_drawn(rt, cell, first, 0, Some(0));
    expect_drawn(rt, cell, second, 1, Some(1));
    expect_drawn(rt, cell, third, 2, Some(2));
    let grant = take(rt, cell, first, 0, 0, 0);
    take_in_vain(rt, cell, second, 1, 1);
    take_in_vain(rt, cell, third, 2, 2);
    give(rt, cell, first, 0, grant);
    take_and_give(rt, cell, third, 2);
    take_and_give(rt, cell, second, 1);
    expect_drawn(rt, cell, third, 2, None);
    expect_drawn(rt, cell, first, 0, None);
    expect_drawn(rt, cell, second, 1, None);
}

/// One slot, three jobs and three callers, on a cell that is closed afterwards.
fn play_to_the_end<R: Wait + Abort>(
    rt: &R,
    alloc: Global,
    cell: Cell<16, 34>,
    mut first: Pass,
    mut second: Pass,
    mut third: Pass,
) -> Result<SlotState<16>, AllocError>
    requires three { callers_of cell ≡ 3 }
    requires first { IsNumbered cell 0 first }
    requires first_none { outstanding (mine_of first) ≡ [] }
    requires second { IsNumbered cell 1 second }
    requires second_none { outstanding (mine_of second) ≡ [] }
    requires third { IsNumbered cell 2 third }
    requires third_none { outstanding (mine_of third) ≡ [] }
{
    play(rt, &cell, &mut first, &mut second, &mut third);
    close(rt, alloc, cell, first, second, third)
}

fn expect_end<R: Abort>(rt: &R, state: &SlotState<16>) {
    same(rt, &state.held, &[0; 16], &"held");
    same(rt, &state.next, &3, &"next");
}

#[test]
fn one_shared_slot_serves_three_callers(rt: HostRuntime) -> Result<(), Fail> {
    let limits = limits_of(1, 1, 3);
    assert!(rt; limits.are_valid());
    let (cell, passes) = Cell::new(&rt, rt.alloc(), limits, 3)?;
    let Some((first, second, third)) = apart(&cell, passes) else {
        panic!(rt; "too few passes");
    };
    let state = play_to_the_end(&rt, rt.alloc(), cell, first, second, third)?;
    expect_end(&rt, &state);
    Ok(())
}

/// Waits until that many calls of all callers are made.
fn wait_for<R: Wait>(rt: &R, made: &AtomicU64, calls: u64) {
    for _ in rt.forever() {
        if made.load(Ordering::SeqCst) == calls {
            return;
        }
        thread::yield_now();
    }
    unreachable!()
}

/// One caller's part in the calls of three that have one slot for three jobs.
fn play_part<R: Wait + Abort>(
    rt: &R,
    cell: &Cell<16, 34>,
    pass: &mut Pass,
    caller: u32,
    made: &AtomicU64,
)
    requires pass { IsNumbered cell.now caller pass.old }
    requires none { outstanding (mine_of pass.old) ≡ [] }
    ensures pass { IsNumbered cell.now caller pass.new }
    ensures none { outstanding (mine_of pass.new) ≡ [] }
{
    let (in_vain, taken, given, last) = match caller {
        0 => (None, 3, 6, 12),
        1 => (Some(4), 9, 10, 13),
        _ => (Some(5), 7, 8, 11),
    };
    wait_for(rt, made, u64::from(caller));
    expect_drawn(rt, cell, pass, caller, Some(caller));
    made.fetch_add(1, Ordering::SeqCst);
    if let Some(calls) = in_vain {
        wait_for(rt, made, calls);
        take_in_vain(rt, cell, pass, caller, caller);
        made.fetch_add(1, Ordering::SeqCst);
    }
    wait_for(rt, made, taken);
    let grant = take(rt, cell, pass, caller, caller, 0);
    made.fetch_add(1, Ordering::SeqCst);
    wait_for(rt, made, given);
    give(rt, cell, pass, caller, grant);
    made.fetch_add(1, Ordering::SeqCst);
    wait_for(rt, made, last);
    expect_drawn(rt, cell, pass, caller, None);
    made.fetch_add(1, Ordering::SeqCst);
}

#[test]
fn one_slot_serves_three_threads(rt: HostRuntime) -> Result<(), Fail> {
    let limits = limits_of(1, 1, 3);
    assert!(rt; limits.are_valid());
    let (cell, mut passes) = Cell::new(&rt, rt.alloc(), limits, 3)?;
    let made = AtomicU64::new(0);
    thread::for_each_mut(
        &rt,
        passes.as_mut_slice(),
        3,
        &|caller, pass| { play_part(&rt, &cell, pass, caller as u32, &made) },
    );
    let (slots, _pass) = cell.close(&rt, passes);
    expect_end(&rt, &slots.state);
    Ok(())
}
