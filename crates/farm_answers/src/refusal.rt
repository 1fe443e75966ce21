//! Why a command isn't done, and how `farm` ends then.

ghost use Rattle.stream_print.specs.Prints.{sinks_view};
ghost use Rattle.farm_answers.specs.Refusals.{Refuses};

use crate::needs::{refuse_cycle, refuse_needs};
use crate::refusing::{
    refuse_host_list, refuse_job_list, refuse_period, refuse_unread, refuse_words, want_memory,
};
use edge_traits::Sink;
use farm_types::Bytes;
use host_list::HostFault;
use job_graph::{GraphFault, Numbers};
use job_list::JobFault;
use std::alloc::Global;

/// Why a command isn't done.
#[derive(Drop)]
pub enum Refusal {
    /// The words are no command. The one at this place is the first that doesn't fit.
    Words {
        place: usize,
    },
    /// The back-off period of the environment is no number of seconds within its limit.
    Period,
    /// This fault is in the text of the hosts, at this byte.
    Hosts {
        at: u64,
        fault: HostFault,
    },
    /// The input couldn't be read.
    Unread,
    /// This text was read and is no job list: the fault is in it, at this line, or in all of it, which is line 0. It isn't kept if
    /// it is too long.
    Jobs {
        line: u32,
        fault: JobFault,
        text: Bytes,
    },
    /// A line of needs has this fault, in this text.
    Needs {
        line: u32,
        fault: GraphFault,
        text: Bytes,
    },
    /// Each of these jobs needs the next, and the last the first.
    Cycle {
        jobs: Numbers,
    },
    /// Memory ran out.
    Memory,
}

/// Prints why a command isn't done, and answers the exit status.
pub fn refuse<O: Sink, E: Sink>(alloc: Global, refusal: &Refusal, out: &mut O, err: &mut E) -> u8
    ensures { Refuses refusal.now (sinks_view O.shows E.shows out.old err.old)
        (sinks_view O.shows E.shows out.new err.new) result }
{
    match refusal {
        Refusal::Words { place } => refuse_words(alloc, *place, out, err),
        Refusal::Period => refuse_period(out, err),
        Refusal::Hosts { at, fault } => refuse_host_list(alloc, *at, *fault, out, err),
        Refusal::Unread => refuse_unread(out, err),
        Refusal::Jobs { line, fault, .. } => refuse_job_list(alloc, *line, *fault, out, err),
        Refusal::Needs { line, fault, .. } => refuse_needs(alloc, *line, *fault, out, err),
        Refusal::Cycle { jobs } => refuse_cycle(alloc, jobs, out, err),
        Refusal::Memory => want_memory(out, err),
    }
}
