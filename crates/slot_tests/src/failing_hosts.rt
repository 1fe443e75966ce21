//! Given runs over hosts that fail, and what the check of each answers.

use crate::machine::{BOTH, Call, Job, LIMITS, Row, SECOND, check_rows};
use farm_machine::Event;
use slot_table::{Limits, SlotCall, SlotReply};
use std::test::Fail;

/// The events of a job whose hosts both failed, and which was compiled here.
const BOTH_FAILED: &[Event] = &[
    Event::Ran(0),
    Event::Took(0),
    Event::Exchanged(0),
    Event::GaveBad {
        host: 0,
        until: 160,
    },
    Event::Took(1),
    Event::Exchanged(1),
    Event::GaveBad {
        host: 1,
        until: 161,
    },
    Event::TookLocal,
    Event::Ran(1),
    Event::GaveLocal,
    Event::Put(0),
];

/// The events of the next job, which found both in back-off.
const FOUND_DOWN: &[Event] = &[
    Event::Fetched(0),
    Event::Down,
    Event::TookLocal,
    Event::Ran(2),
    Event::GaveLocal,
    Event::Put(1),
];

const DRAW_0: &[Call] = &[(0, SlotCall::Draw, SlotReply::Drawn(Some(0)))];

const FIRST_TRY: &[Call] = &[(
    0,
    SlotCall::Take {
        job: 0,
        mask: BOTH,
        now: 100,
    },
    SlotReply::Got(0),
)];

const FIRST_BAD: &[Call] = &[(
    0,
    SlotCall::GiveBad {
        host: 0,
        job: 0,
        until: 160,
    },
    SlotReply::Given,
)];

const SECOND_TRY: &[Call] = &[(
    0,
    SlotCall::Take {
        job: 0,
        mask: SECOND,
        now: 101,
    },
    SlotReply::Got(1),
)];

const REST_OF_0: &[Call] = &[
    (
        0,
        SlotCall::GiveBad {
            host: 1,
            job: 0,
            until: 161,
        },
        SlotReply::Given,
    ),
    (0, SlotCall::TakeLocal { job: 0 }, SlotReply::Local(true)),
    (0, SlotCall::GiveLocal { job: 0 }, SlotReply::Given),
];

const DRAW_1: &[Call] = &[(0, SlotCall::Draw, SlotReply::Drawn(Some(1)))];

const ALL_DOWN: &[Call] = &[(
    0,
    SlotCall::Take {
        job: 1,
        mask: BOTH,
        now: 150,
    },
    SlotReply::Down,
)];

const LOCAL_1: &[Call] = &[
    (0, SlotCall::TakeLocal { job: 1 }, SlotReply::Local(true)),
    (0, SlotCall::GiveLocal { job: 1 }, SlotReply::Given),
];

const LAST_DRAW: &[Call] = &[(0, SlotCall::Draw, SlotReply::Drawn(None))];

const BAD_UNTIL_170: &[Call] = &[(
    0,
    SlotCall::GiveBad {
        host: 0,
        job: 0,
        until: 170,
    },
    SlotReply::Given,
)];

const TRIED_AGAIN: &[Call] = &[(
    0,
    SlotCall::Take {
        job: 0,
        mask: BOTH,
        now: 101,
    },
    SlotReply::Got(1),
)];

const NOT_LEFT_ALONE: &[Call] = &[(
    0,
    SlotCall::Take {
        job: 1,
        mask: BOTH,
        now: 150,
    },
    SlotReply::Got(0),
)];

const NO_LOCAL_SLOT: &[Call] = &[(0, SlotCall::TakeLocal { job: 1 }, SlotReply::Local(false))];

const GIVE_LOCAL_1: &[Call] = &[(0, SlotCall::GiveLocal { job: 1 }, SlotReply::Given)];

const TWO_HOSTS: &[Row] = &[
    (
        &[
            DRAW_0, FIRST_TRY, FIRST_BAD, SECOND_TRY, REST_OF_0, DRAW_1, ALL_DOWN, LOCAL_1,
            LAST_DRAW,
        ],
        None,
    ),
    (
        &[DRAW_0, FIRST_TRY, FIRST_BAD, SECOND_TRY, REST_OF_0],
        Some(7),
    ),
    (
        &[DRAW_0, FIRST_TRY, BAD_UNTIL_170, SECOND_TRY, REST_OF_0],
        Some(2),
    ),
    (
        &[DRAW_0, FIRST_TRY, FIRST_BAD, TRIED_AGAIN, REST_OF_0],
        Some(3),
    ),
    (
        &[
            DRAW_0,
            FIRST_TRY,
            FIRST_BAD,
            SECOND_TRY,
            REST_OF_0,
            DRAW_1,
            NOT_LEFT_ALONE,
        ],
        Some(8),
    ),
    (
        &[
            DRAW_0, FIRST_TRY, FIRST_BAD, SECOND_TRY, REST_OF_0, DRAW_1, LOCAL_1,
        ],
        Some(8),
    ),
    (
        &[
            DRAW_0,
            FIRST_TRY,
            FIRST_BAD,
            SECOND_TRY,
            REST_OF_0,
            DRAW_1,
            ALL_DOWN,
            NO_LOCAL_SLOT,
        ],
        Some(9),
    ),
    (
        &[
            DRAW_0,
            FIRST_TRY,
            FIRST_BAD,
            SECOND_TRY,
            REST_OF_0,
            DRAW_1,
            ALL_DOWN,
            GIVE_LOCAL_1,
        ],
        Some(9),
    ),
];

const JOBS: &[Job] = &[(0, BOTH_FAILED), (0, FOUND_DOWN)];

#[test]
fn two_hosts_that_fail(rt: HostRuntime) -> Result<(), Fail> {
    let limits = Limits {
        count: 2,
        jobs: 2,
        ..LIMITS
    };
    check_rows(&rt, rt.alloc(), &limits, JOBS, TWO_HOSTS)
}
