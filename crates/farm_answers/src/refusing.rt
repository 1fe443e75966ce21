//! How `farm` ends if it does nothing.

ghost use Rattle.std.specs.Prelude.{◌≡◌, ℕ, List, [], ◌∷◌, IfOk, string_bytes};
ghost use Rattle.farm_types.specs.Exits.{bad_words_status, bad_hosts_status, fault_status, bad_text_status};
ghost use Rattle.stream_print.specs.Prints.{sinks_view};
ghost use Rattle.stream_print.specs.Printing.{Printing, WantOf, complaint};
ghost use Rattle.farm_answers.specs.Texts.{bad_period_text, bad_words_text, cannot_read_text, host_fault_text, job_fault_text, no_memory_text};

use edge_traits::Sink;
use farm_types::exits::{BAD_HOSTS, BAD_TEXT, BAD_WORDS, FAULT};
use host_list::HostFault;
use job_list::JobFault;
use std::alloc::{AllocError, Global};
use stream_print::{complain, no_memory};

/// What is printed if memory runs out outside a job.
pub const NO_MEMORY_TEXT: &[u8] = b"farm: no memory\n";

/// Prints that memory runs out.
pub fn want_memory<O: Sink, E: Sink>(out: &mut O, err: &mut E) -> u8
    ensures { WantOf no_memory_text [] (sinks_view O.shows E.shows out.old err.old)
        (sinks_view O.shows E.shows out.new err.new) result }
{
    no_memory(NO_MEMORY_TEXT, out, err)
}

// Refuses by this text; if there was no memory for it, it says that.
pub(crate) fn refuse_by<O: Sink, E: Sink>(
    text: Result<String, AllocError>,
    status: u8,
    out: &mut O,
    err: &mut E,
) -> u8
    ensures { (said : List ℕ) → IfOk text (λ made. string_bytes made ≡ said)
        → Printing no_memory_text (complaint said ∷ []) status
        (sinks_view O.shows E.shows out.old err.old)
        (sinks_view O.shows E.shows out.new err.new) result }
{
    match text {
        Ok(text) => complain(text.as_bytes(), status, NO_MEMORY_TEXT, out, err),
        Err(_) => want_memory(out, err),
    }
}

/// Refuses a back-off period that the environment names and that isn't right.
pub(crate) fn refuse_period<O: Sink, E: Sink>(out: &mut O, err: &mut E) -> u8
    ensures { Printing no_memory_text (complaint bad_period_text ∷ []) bad_words_status
        (sinks_view O.shows E.shows out.old err.old)
        (sinks_view O.shows E.shows out.new err.new) result }
{
    complain(
        b"farm: bad DISTCC_BACKOFF_PERIOD\n",
        BAD_WORDS,
        NO_MEMORY_TEXT,
        out,
        err,
    )
}

/// Refuses an input that could not be read.
pub(crate) fn refuse_unread<O: Sink, E: Sink>(out: &mut O, err: &mut E) -> u8
    ensures { Printing no_memory_text (complaint cannot_read_text ∷ []) fault_status
        (sinks_view O.shows E.shows out.old err.old)
        (sinks_view O.shows E.shows out.new err.new) result }
{
    complain(
        b"farm: cannot read the job list\n",
        FAULT,
        NO_MEMORY_TEXT,
        out,
        err,
    )
}

/// Refuses words of which the one at this place is the first that doesn't fit.
pub(crate) fn refuse_words<O: Sink, E: Sink>(
    alloc: Global,
    place: usize,
    out: &mut O,
    err: &mut E,
) -> u8
    ensures { Printing no_memory_text (complaint (bad_words_text place) ∷ []) bad_words_status
        (sinks_view O.shows E.shows out.old err.old)
        (sinks_view O.shows E.shows out.new err.new) result }
{
    let text = format!(in alloc; "farm: bad words at word {place}\n");
    refuse_by(text, BAD_WORDS, out, err)
}

/// Refuses a host list that has this fault at this byte.
pub(crate) fn refuse_host_list<O: Sink, E: Sink>(
    alloc: Global,
    at: u64,
    fault: HostFault,
    out: &mut O,
    err: &mut E,
) -> u8
    ensures { Printing no_memory_text (complaint (host_fault_text at fault) ∷ []) bad_hosts_status
        (sinks_view O.shows E.shows out.old err.old)
        (sinks_view O.shows E.shows out.new err.new) result }
{
    let fault = fault.number();
    let text = format!(in alloc; "farm: host list: fault {fault} at byte {at}\n");
    refuse_by(text, BAD_HOSTS, out, err)
}

/// Refuses a job list that has this fault at this line.
pub(crate) fn refuse_job_list<O: Sink, E: Sink>(
    alloc: Global,
    line: u32,
    fault: JobFault,
    out: &mut O,
    err: &mut E,
) -> u8
    ensures { Printing no_memory_text (complaint (job_fault_text line fault) ∷ []) bad_text_status
        (sinks_view O.shows E.shows out.old err.old)
        (sinks_view O.shows E.shows out.new err.new) result }
{
    let fault = fault.number();
    let text = format!(in alloc; "farm: job list: fault {fault} at line {line}\n");
    refuse_by(text, BAD_TEXT, out, err)
}
