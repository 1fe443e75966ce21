//! Calls of sixteen threads, made again on the slots of one thread.
ghost use Rattle.std.specs.Prelude.{◌≡◌, []};
ghost use Rattle.slot_table.specs.History.{outstanding};
ghost use Rattle.farm_cell.specs.Passes.{mine_of};
ghost use Rattle.farm_cell.specs.Ends.{IsNumbered};

use crate::cell_calls::{draw, give, limits_of, try_take};
use crate::same::{holds, same};
use farm_cell::{Cell, Pass};
use slot_table::{CallEntry, Mask, SlotCall, SlotReply, SlotState, Slots};
use std::alloc::Global;
use std::collections::VecDeque;
use std::process::Abort;
use std::sync::{Mutex, Wait};
use std::test::Fail;
use std::thread;

/// Adds a call to the list of its caller's calls.
fn note(
    rt: &impl Abort,
    calls: &mut VecDeque<CallEntry>,
    caller: u32,
    call: SlotCall,
    reply: SlotReply,
) {
    let entry = CallEntry {
        caller,
        call,
        reply,
    };
    calls.push_back(entry).expect(rt, "memory");
}

/// Asks for the one slot. If it gets it, it notes its turn while it holds it, and gives it back.
fn hold<R: Wait + Abort>(
    rt: &R,
    cell: &Cell<16, 34>,
    pass: &mut Pass,
    job: u32,
    caller: u32,
    calls: &mut VecDeque<CallEntry>,
    turns: &Mutex<Vec<u32>>,
)
    requires pass { IsNumbered cell.now caller pass.old }
    requires none { outstanding (mine_of pass.old) ≡ [] }
    ensures pass { IsNumbered cell.now caller pass.new }
    ensures none { outstanding (mine_of pass.new) ≡ [] }
{
    let mask = Mask::all(1);
    let call = SlotCall::Take { job, mask, now: 5 };
    let Some(grant) = try_take(rt, cell, pass, caller, job, mask) else {
        note(rt, calls, caller, call, SlotReply::Full);
        thread::yield_now();
        return;
    };
    let host = grant.host();
    note(rt, calls, caller, call, SlotReply::Got(host));
    turns.lock(rt).push(caller).expect(rt, "memory");
    give(rt, cell, pass, caller, grant);
    let call = SlotCall::Give { host, job };
    note(rt, calls, caller, call, SlotReply::Given);
}

/// Draws jobs until there are no more, and asks for the slot for each. It answers its calls, in their order.
fn work<R: Wait + Abort>(
    rt: &R,
    alloc: Global,
    cell: &Cell<16, 34>,
    pass: &mut Pass,
    caller: u32,
    turns: &Mutex<Vec<u32>>,
) -> VecDeque<CallEntry>
    requires pass { IsNumbered cell.now caller pass.old }
    requires none { outstanding (mine_of pass.old) ≡ [] }
    ensures pass { IsNumbered cell.now caller pass.new }
    ensures none { outstanding (mine_of pass.new) ≡ [] }
{
    let mut calls = VecDeque::new(alloc);
    for _ in rt.forever() {
        let drawn = draw(rt, cell, pass, caller);
        note(
            rt,
            &mut calls,
            caller,
            SlotCall::Draw,
            SlotReply::Drawn(drawn),
        );
        let Some(job) = drawn else {
            return calls;
        };
        hold(rt, cell, pass, job, caller, &mut calls, turns);
    }
    unreachable!()
}

/// Makes the call if it may be made and has this reply, and says whether it did.
fn accepts(slots: &mut Slots<16>, entry: &CallEntry) -> bool {
    let mut tried = *slots;
    if !tried.can_step(entry.call) || tried.step(entry.call) != entry.reply {
        return false;
    }
    *slots = tried;
    true
}

/// Whether the call takes the slot or gives it back. In which order those were made is known.
fn is_of_turn(entry: &CallEntry) -> bool {
    matches!(entry.reply, SlotReply::Got(_) | SlotReply::Given)
}

/// Makes the next call of each caller that isn't of a turn and has its place here, and says whether there
/// was one.
fn advance(slots: &mut Slots<16>, lists: &mut [VecDeque<CallEntry>]) -> bool {
    let mut any = false;
    for calls in lists.iter_mut() {
        let Some(entry) = calls.front().copied() else {
            continue;
        };
        if !is_of_turn(&entry) && accepts(slots, &entry) {
            let _made = calls.pop_front();
            any = true;
        }
    }
    any
}

/// Makes all calls that have their place before the next turn.
fn settle(slots: &mut Slots<16>, lists: &mut [VecDeque<CallEntry>]) {
    for _ in 0..10_000 {
        if !advance(slots, lists) {
            return;
        }
    }
}

/// Makes the next call of this caller, which must be of a turn and have its place here.
fn turn(rt: &impl Abort, slots: &mut Slots<16>, lists: &mut [VecDeque<CallEntry>], caller: u32) {
    for calls in lists.iter_mut() {
        let Some(entry) = calls.front().copied() else {
            continue;
        };
        if entry.caller == caller {
            let fits = is_of_turn(&entry) && accepts(slots, &entry);
            assert!(rt; fits, "{entry:?} has no place");
            let _made = calls.pop_front();
            return;
        }
    }
    panic!(rt; "caller {caller} made no more calls");
}

/// Makes all calls again on the slots of one thread: each caller's in their order, and the turns in theirs.
fn replay(
    rt: &impl Abort,
    slots: &mut Slots<16>,
    lists: &mut [VecDeque<CallEntry>],
    turns: &[u32],
) {
    settle(slots, lists);
    for caller in turns {
        turn(rt, slots, lists, *caller);
        settle(slots, lists);
        turn(rt, slots, lists, *caller);
        settle(slots, lists);
    }
}

fn expect_state<R: Abort>(rt: &R, replayed: &SlotState<16>, state: &SlotState<16>) {
    same(rt, replayed, state, &"the history");
    same(rt, &state.held, &[0; 16], &"held");
    same(rt, &state.next, &512, &"next");
}

#[test]
fn sixteen_threads_make_one_history(rt: HostRuntime) -> Result<(), Fail> {
    let limits = limits_of(1, 1, 512);
    assert!(rt; limits.are_valid());
    let alloc: Global = rt.alloc();
    let (cell, mut passes) = Cell::new(&rt, alloc, limits, 16)?;
    let lists: Mutex<Vec<VecDeque<CallEntry>>> = Mutex::new(Vec::new(alloc));
    let turns: Mutex<Vec<u32>> = Mutex::new(Vec::new(alloc));
    thread::for_each_mut(
        &rt,
        passes.as_mut_slice(),
        16,
        &|caller, pass| {
            let calls = work(&rt, alloc, &cell, pass, caller as u32, &turns);
            lists.lock(&rt).push(calls).expect(&rt, "memory");
        },
    );
    let (closed, _pass) = cell.close(&rt, passes);
    let mut lists = lists.into_inner();
    let mut slots = Slots::new(limits);
    replay(
        &rt,
        &mut slots,
        lists.as_mut_slice(),
        turns.into_inner().as_slice(),
    );
    let left = lists.iter().any(|calls| !calls.is_empty());
    holds(&rt, !left, &"each call has its place in the history");
    expect_state(&rt, &slots.state, &closed.state);
    Ok(())
}
