ghost use Rattle.std.specs.Prelude.{◌≡◌, ◌*◌, ◌≤◌, []};
ghost use Rattle.slot_table.specs.Grants.{cost};
ghost use Rattle.slot_table.specs.History.{outstanding};

use crate::same::{holds, same};
use slot_table::host_backoff::bad_until;
use slot_table::{CallEntry, Grants, Limits, Mask, OneThread, SlotCall, SlotReply, Slots, Take};
use std::alloc::{AllocError, Global};
use std::process::Abort;
use std::test::Fail;

/// One remote entry of one slot, one local slot, and one job.
const ONE: Limits<16> = Limits {
    count: 1,
    limit: [1; 16],
    local: [false; 16],
    local_slots: 1,
    jobs: 1,
    rotate: false,
};

const FIRST: Mask = Mask { bits: 1 };

const BOTH: Mask = Mask { bits: 3 };

const SIXTEEN: Mask = Mask { bits: 65_535 };

/// A take for this job, of an entry of the mask, at this moment.
macro_rules! take {
    ($job:expr, $mask:expr, $now:expr) => {
        SlotCall::Take {
            job: $job,
            mask: $mask,
            now: $now,
        }
    };
}

macro_rules! give_bad {
    ($job:expr, $until:expr) => {
        SlotCall::GiveBad {
            host: 0,
            job: $job,
            until: $until,
        }
    };
}

/// A call, and its reply.
type Row = (SlotCall, SlotReply);

fn slots_of<R: Abort>(rt: &R, limits: Limits<16>) -> Slots<16> {
    assert!(rt; limits.are_valid());
    Slots::new(limits)
}

/// Makes a call that may be made.
fn made<R: Abort>(rt: &R, slots: &mut Slots<16>, call: SlotCall) -> SlotReply {
    assert!(rt; slots.can_step(call), "{call:?} may not be made");
    slots.step(call)
}

/// Makes the call, and compares its reply.
fn expect<R: Abort>(rt: &R, slots: &mut Slots<16>, call: SlotCall, reply: SlotReply) {
    same(rt, &made(rt, slots, call), &reply, &call);
    let within = slots.state.held[0] <= slots.limits.limit[0];
    holds(rt, within, &("the limit", call));
}

fn replay<R: Abort>(rt: &R, slots: &mut Slots<16>, rows: &[Row]) {
    for (call, reply) in rows {
        expect(rt, slots, *call, *reply);
    }
}

const ONE_SLOT: &[Row] = &[
    (SlotCall::Draw, SlotReply::Drawn(Some(0))),
    (SlotCall::Draw, SlotReply::Drawn(Some(1))),
    (SlotCall::Draw, SlotReply::Drawn(Some(2))),
    (take!(0, FIRST, 5), SlotReply::Got(0)),
    (take!(1, FIRST, 5), SlotReply::Full),
    (take!(2, FIRST, 5), SlotReply::Full),
    (SlotCall::Give { host: 0, job: 0 }, SlotReply::Given),
    (take!(2, FIRST, 6), SlotReply::Got(0)),
    (SlotCall::Give { host: 0, job: 2 }, SlotReply::Given),
    (take!(1, FIRST, 7), SlotReply::Got(0)),
    (SlotCall::Give { host: 0, job: 1 }, SlotReply::Given),
    (SlotCall::Draw, SlotReply::Drawn(None)),
    (SlotCall::Draw, SlotReply::Drawn(None)),
    (SlotCall::Draw, SlotReply::Drawn(None)),
];

#[test]
fn one_slot_serves_three_callers(rt: HostRuntime) {
    let mut slots = slots_of(&rt, Limits { jobs: 3, ..ONE });
    replay(&rt, &mut slots, ONE_SLOT);
    same(&rt, &slots.state.held, &[0; 16], &"held");
    same(&rt, &slots.state.next, &3, &"next");
}

/// The period, the moment of the second take, and its reply.
const LEFT_ALONE: &[(u32, u64, SlotReply)] = &[
    (60, 159, SlotReply::Down),
    (60, 160, SlotReply::Got(0)),
    (0, 100, SlotReply::Got(0)),
];

fn expect_left_alone<R: Abort>(rt: &R, rows: &[(u32, u64, SlotReply)]) {
    for (period, now, reply) in rows {
        let mut slots = slots_of(rt, Limits { jobs: 2, ..ONE });
        let until = bad_until(100, *period);
        expect(rt, &mut slots, take!(0, FIRST, 100), SlotReply::Got(0));
        expect(rt, &mut slots, give_bad!(0, until), SlotReply::Given);
        expect(rt, &mut slots, take!(1, FIRST, *now), *reply);
    }
}

#[test]
fn a_host_that_failed_is_left_alone(rt: HostRuntime) {
    expect_left_alone(&rt, LEFT_ALONE);
    let last = bad_until(u64::MAX - 1, 60);
    same(&rt, &last, &u64::MAX, &"the last moment");
}

const EARLIER: &[Row] = &[
    (take!(0, BOTH, 100), SlotReply::Got(0)),
    (take!(1, BOTH, 100), SlotReply::Got(0)),
    (give_bad!(0, 160), SlotReply::Given),
    (give_bad!(1, 130), SlotReply::Given),
    (take!(2, FIRST, 159), SlotReply::Down),
    (take!(2, BOTH, 159), SlotReply::Got(1)),
    (take!(3, BOTH, 159), SlotReply::Got(1)),
    (take!(0, BOTH, 159), SlotReply::Full),
    (take!(0, BOTH, 160), SlotReply::Got(0)),
    (take!(0, Mask { bits: 0 }, 160), SlotReply::Down),
    (take!(0, Mask { bits: 4 }, 160), SlotReply::Down),
];

#[test]
fn an_earlier_moment_does_not_shorten_the_wait(rt: HostRuntime) {
    let limits = Limits {
        count: 2,
        limit: [2; 16],
        jobs: 4,
        ..ONE
    };
    let mut slots = slots_of(&rt, limits);
    replay(&rt, &mut slots, EARLIER);
    let until = slots.state.until[0];
    same(&rt, &until, &160, &"until");
}

/// Whether jobs begin at different entries, the job, the entries that it may have, and the reply.
const BEGINS: &[(bool, u32, u64, SlotReply)] = &[
    (false, 1, 0b111, SlotReply::Got(0)),
    (true, 0, 0b111, SlotReply::Got(0)),
    (true, 1, 0b111, SlotReply::Got(1)),
    (true, 5, 0b111, SlotReply::Got(2)),
    (true, 2, 0b011, SlotReply::Got(0)),
    (true, 1, 0b101, SlotReply::Got(2)),
    (true, 7, 0b001, SlotReply::Got(0)),
    (true, 7, 0b1000, SlotReply::Down),
];

fn expect_begins<R: Abort>(rt: &R, rows: &[(bool, u32, u64, SlotReply)]) {
    for (rotate, job, bits, reply) in rows {
        let limits = Limits {
            count: 3,
            jobs: 9,
            rotate: *rotate,
            ..ONE
        };
        let mut slots = slots_of(rt, limits);
        expect(rt, &mut slots, take!(*job, Mask { bits: *bits }, 0), *reply);
    }
}

#[test]
fn jobs_begin_at_different_entries(rt: HostRuntime) {
    expect_begins(&rt, BEGINS);
    let none = Limits {
        count: 0,
        rotate: true,
        ..ONE
    };
    let mut slots = slots_of(&rt, none);
    expect(&rt, &mut slots, take!(0, Mask::all(64), 0), SlotReply::Down);
}

const FILLED: &[Row] = &[
    (take!(16, SIXTEEN, 0), SlotReply::Full),
    (SlotCall::Give { host: 15, job: 15 }, SlotReply::Given),
    (take!(16, Mask { bits: 32_767 }, 0), SlotReply::Full),
    (take!(16, SIXTEEN, 0), SlotReply::Got(15)),
];

fn fill<R: Abort>(rt: &R, slots: &mut Slots<16>) {
    for host in 0..16 {
        expect(rt, slots, take!(host, SIXTEEN, 0), SlotReply::Got(host));
    }
}

#[test]
fn sixteen_entries_are_filled_in_order(rt: HostRuntime) {
    let limits = Limits {
        count: 16,
        jobs: 512,
        ..ONE
    };
    let mut slots = slots_of(&rt, limits);
    fill(&rt, &mut slots);
    replay(&rt, &mut slots, FILLED);
}

const LOCAL: &[Row] = &[
    (SlotCall::TakeLocal { job: 0 }, SlotReply::Local(true)),
    (SlotCall::TakeLocal { job: 1 }, SlotReply::Local(true)),
    (SlotCall::TakeLocal { job: 2 }, SlotReply::Local(false)),
    (take!(2, FIRST, 0), SlotReply::Got(0)),
    (SlotCall::GiveLocal { job: 0 }, SlotReply::Given),
    (SlotCall::TakeLocal { job: 2 }, SlotReply::Local(true)),
];

/// A call, and whether it may be made.
const MAY_BE_MADE: &[(SlotCall, bool)] = &[
    (give_bad!(2, 9), false),
    (SlotCall::Give { host: 1, job: 2 }, false),
    (SlotCall::Give { host: 0, job: 2 }, true),
];

fn expect_may_be_made<R: Abort>(rt: &R, slots: &Slots<16>, rows: &[(SlotCall, bool)]) {
    for (call, wanted) in rows {
        same(rt, &slots.can_step(*call), wanted, call);
    }
}

#[test]
fn local_slots_and_local_entries(rt: HostRuntime) {
    let limits = Limits {
        limit: [2; 16],
        local: [true; 16],
        local_slots: 2,
        jobs: 3,
        ..ONE
    };
    let mut slots = slots_of(&rt, limits);
    replay(&rt, &mut slots, LOCAL);
    expect_may_be_made(&rt, &slots, MAY_BE_MADE);
}

fn expect_grant<R: Abort>(rt: &R, slots: &mut Slots<16>) {
    match slots.take(7, 1, BOTH, 0) {
        Take::Got(grant) => {
            let names = (grant.caller(), grant.job(), grant.host());
            same(rt, &names, &(7, 1, 1), &"a slot");
            slots.give(grant);
        }
        _ => panic!(rt; "no slot"),
    }
}

fn expect_local_grant<R: Abort>(rt: &R, slots: &mut Slots<16>) {
    match slots.take_local(7, 2) {
        Some(grant) => {
            let names = (grant.caller(), grant.job());
            same(rt, &names, &(7, 2), &"a local slot");
            slots.give_local(grant);
        }
        None => panic!(rt; "no local slot"),
    }
}

#[test]
fn grants_name_their_caller_job_and_host(rt: HostRuntime) {
    let limits = Limits {
        count: 2,
        jobs: 3,
        rotate: true,
        ..ONE
    };
    let mut slots = slots_of(&rt, limits);
    same(&rt, &slots.draw(7), &Some(0), &"a job");
    expect_grant(&rt, &mut slots);
    expect_local_grant(&rt, &mut slots);
    same(&rt, &slots.state.held, &[0; 16], &"held");
    same(&rt, &slots.state.local_held, &0, &"local slots");
}

/// How many entries there are, and the bits of all.
const MASKS: &[(u32, u64)] = &[
    (0, 0),
    (1, 1),
    (2, 3),
    (3, 7),
    (16, 65_535),
    (63, 9_223_372_036_854_775_807),
    (64, 18_446_744_073_709_551_615),
];

fn expect_masks<R: Abort>(rt: &R, rows: &[(u32, u64)]) -> Result<(), Fail> {
    for (count, bits) in rows {
        if *count > 64 {
            return Err("a mask has at most 64 entries".into());
        }
        same(rt, &Mask::all(*count).bits, bits, count);
    }
    Ok(())
}

#[test]
fn masks_have_their_entries(rt: HostRuntime) -> Result<(), Fail> {
    expect_masks(&rt, MASKS)?;
    let mask = Mask::all(64).without(63).without(0);
    same(&rt, &mask.bits, &(u64::MAX / 2 - 1), &"all but two");
    holds(&rt, mask.contains(1), &"the second");
    holds(&rt, !mask.contains(63), &"the last");
    same(
        &rt,
        &Mask::all(16).without(15).bits,
        &32_767,
        &"all but one",
    );
    Ok(())
}

/// Draws a job, takes a slot of a host and a local slot for it, and gives each back.
fn work_once<G: Grants>(rt: &impl Abort, grants: &mut G)
    requires ready { G.ready grants.old }
    requires spare { 5 * cost G.alone ≤ G.spare grants.old }
    requires none { outstanding (G.mine grants.old) ≡ [] }
    ensures ready { G.ready grants.new }
{
    let _job = grants.draw();
    match grants.take(0, FIRST, 100) {
        Take::Got(grant) => grants.give(grant),
        Take::Full | Take::Down => panic!(rt; "no slot"),
    }
    match grants.take_local(0) {
        Some(grant) => grants.give_local(grant),
        None => panic!(rt; "no local slot"),
    }
}

macro_rules! entry {
    ($call:expr, $reply:expr) => {
        CallEntry {
            caller: 0,
            call: $call,
            reply: $reply,
        }
    };
}

const CALLS: &[CallEntry] = &[
    entry!(SlotCall::Draw, SlotReply::Drawn(Some(0))),
    entry!(take!(0, FIRST, 100), SlotReply::Got(0)),
    entry!(SlotCall::Give { host: 0, job: 0 }, SlotReply::Given),
    entry!(SlotCall::TakeLocal { job: 0 }, SlotReply::Local(true)),
    entry!(SlotCall::GiveLocal { job: 0 }, SlotReply::Given),
];

/// The slots of one thread that has worked once.
fn worked<R: Abort>(rt: &R, alloc: Global) -> Result<OneThread<16>, AllocError> {
    assert!(rt; ONE.are_valid());
    let mut thread = OneThread::new(alloc, ONE, 5)?;
    same(rt, &thread.caller(), &0, &"the caller");
    work_once(rt, &mut thread);
    Ok(thread)
}

#[test]
fn one_thread_keeps_its_calls(rt: HostRuntime) -> Result<(), Fail> {
    let thread = worked(&rt, rt.alloc())?;
    same(&rt, &thread.calls(), &CALLS, &"calls");
    let (slots, calls) = thread.close();
    same(&rt, &slots.state.next, &1, &"next");
    same(&rt, &calls.len(), &5, &"how many");
    Ok(())
}
