// What a call of the slots is to the job that it is of.
ghost use Rattle.std.specs.Prelude.{◌≡◌, ℕ, None};
ghost use Rattle.farm_machine.specs.declared.kinds.Kind.TheVariants.{Adds};
ghost use Rattle.slot_table.specs.declared.calls.SlotCall.TheVariants.{Take as AskTake};
ghost use Rattle.farm_machine.specs.Machine.{job_call, job_call_of};
ghost use Rattle.farm_machine.specs.Checking.{kind_of};

use crate::reports::Event;
use slot_table::{CallEntry, Mask, SlotCall, SlotReply};

/// What a call with its reply is. A take of a host's slot comes with its mask.
#[derive(Clone, Copy)]
pub(crate) enum Kind {
    /// A draw of a job, or of none.
    Draws(Option<u32>),
    /// A slot event of this job.
    Adds {
        job: u32,
        mask: Option<Mask>,
        event: Event,
    },
    /// A refused take of this job, of a local slot or of a host's.
    Waits {
        job: u32,
        mask: Option<Mask>,
        local: bool,
    },
    /// A reply that no such call has.
    Mismatched,
}

/// A slot event of the job that has no mask.
fn adds(job: u32, event: Event) -> Kind
    ensures { result ≡ Adds job None event }
{
    Kind::Adds {
        job,
        mask: None,
        event,
    }
}

/// What a take of a host's slot is with this reply.
fn take_kind(job: u32, mask: Mask, reply: SlotReply) -> Kind
    ensures { (now : ℕ) → result ≡ kind_of (job_call (AskTake job mask now) reply) }
{
    let mask = Some(mask);
    match reply {
        SlotReply::Got(host) => Kind::Adds {
            job,
            mask,
            event: Event::Took(host),
        },
        SlotReply::Down => Kind::Adds {
            job,
            mask,
            event: Event::Down,
        },
        SlotReply::Full => Kind::Waits {
            job,
            mask,
            local: false,
        },
        SlotReply::Drawn(_) | SlotReply::Local(_) | SlotReply::Given => Kind::Mismatched,
    }
}

/// What a call with its reply is.
pub(crate) fn kind_of(entry: &CallEntry) -> Kind
    ensures { result ≡ kind_of (job_call_of entry.now) }
{
    match (entry.call, entry.reply) {
        (SlotCall::Draw, SlotReply::Drawn(job)) => Kind::Draws(job),
        (SlotCall::Take { job, mask, .. }, reply) => take_kind(job, mask, reply),
        (SlotCall::Give { host, job }, SlotReply::Given) => adds(job, Event::Gave(host)),
        (SlotCall::GiveBad { host, job, until }, SlotReply::Given) => {
            adds(job, Event::GaveBad { host, until })
        }
        (SlotCall::TakeLocal { job }, SlotReply::Local(true)) => adds(job, Event::TookLocal),
        (SlotCall::TakeLocal { job }, SlotReply::Local(false)) => Kind::Waits {
            job,
            mask: None,
            local: true,
        },
        (SlotCall::GiveLocal { job }, SlotReply::Given) => adds(job, Event::GaveLocal),
        _ => Kind::Mismatched,
    }
}
