//! The public call of the program.
ghost use Rattle.std.specs.Prelude.{◌≡◌, ◌⊎◌, IsTrue, false, ℕ, List, [], Some, map, string_bytes};
ghost use Rattle.farm_types.specs.Exits.{bad_words_status, memory_status};
ghost use Rattle.farm_types.specs.declared.jobs.JobConfig.{JobConfig};
ghost use Rattle.edge_traits.specs.Keepers.{IsIdle};
ghost use Rattle.stream_print.specs.Printing.{complaint};
ghost use Rattle.stream_print.specs.Prints.{sinks_view};
ghost use Rattle.farm_machine.specs.Devices.{devices};
ghost use Rattle.job_list.specs.Jobs.{JobsOf};
ghost use Rattle.farm_options.specs.Commands.{BadAt, IsCommand, Meaning, meaning};
ghost use Rattle.farm_answers.specs.Refusals.{Refuses};
ghost use Rattle.farm_answers.specs.Texts.{bad_words_text};
ghost use Rattle.farm_program.specs.Worlds.{AreReady, world, OnlyPrinted};
ghost use Rattle.farm_program.specs.Smooth.{IsSmooth, Completed, WatchCompleted};
ghost use Rattle.farm_options.specs.Within.{IsWithin};
ghost use Rattle.farm_program.specs.Commands.{Does, IsBuildBy, IsGraphBy, IsWatchBy, WasRefused};
ghost use Rattle.farm_program.specs.GraphBuilds.{GraphCompleted};
ghost use Rattle.job_graph.specs.Graphs.{GraphOf};
ghost use Rattle.job_graph.specs.declared.graph.Graph.{Graph};

use crate::decide::{Invocation, decide};
use crate::jobs::BuiltList;
use crate::tell::tell;
use crate::work::carry_out;
use edge_traits::{Clock, Dialer, Keeper, Kit, Sink, Source, Station};
use farm_answers::{Refusal, refuse};
use farm_options::parse_command;
use kit_types::{KitOf, KitTypes, Observed};
use std::alloc::Global;
use std::sync::Wait;
use std::thread::Threads;

/// How `farm` ended: its exit status, what was built, and why nothing was, if it was refused.
#[derive(Drop)]
pub struct Ended {
    pub status: u8,
    pub built: BuiltList,
    pub refusal: Option<Refusal>,
}

// Prints why nothing is done.
fn end_refused<O: Sink, E: Sink>(alloc: Global, refusal: Refusal, out: &mut O, err: &mut E) -> Ended
    ensures none { result.built ≡ [] }
    ensures told { Refuses refusal (sinks_view O.shows E.shows out.old err.old)
        (sinks_view O.shows E.shows out.new err.new) result.status }
    ensures handed { result.refusal ≡ Some refusal }
{
    let status = refuse(alloc, &refusal, out, err);
    Ended {
        status,
        built: BuiltList::new(alloc),
        refusal: Some(refusal),
    }
}

// Does a command, and answers its exit status.
fn answer<T: Threads + Wait + Sync, X: KitTypes, R: Source, O: Sink, E: Sink + Send>(
    rt: &T,
    call: Invocation<'_>,
    input: &mut R,
    kits: &mut Vec<KitOf<X>>,
    out: &mut O,
    err: &mut E,
) -> Ended
    requires input { (R.shows input.old).ended ≡ false }
    requires kits { AreReady 1 (λ kit. IsIdle (X.Keeper.shows kit.keeper)) kits.old.items }
    requires within { IsWithin (meaning call.command) }
    ensures does { Does ⟦<KitOf<X> as Observed>⟧.devices
        (map (λ v. (string_bytes v.0, string_bytes v.1)) call.entry.env.now)
        (world R.shows O.shows E.shows input.old kits.old.items out.old err.old [])
        (world R.shows O.shows E.shows input.new kits.new.items out.new err.new result.built)
        result.status (meaning call.entry.command) }
    ensures refused { WasRefused result.refusal result.built (sinks_view O.shows E.shows out.old err.old)
        (sinks_view O.shows E.shows out.new err.new) result.status }
{
    let alloc = call.alloc;
    let work = match decide(call, input) {
        Ok(work) => work,
        Err(refusal) => return end_refused(alloc, refusal, out, err),
    };
    match carry_out::<T, X, E>(rt, alloc, work, kits, err) {
        Ok(done) => Ended {
            status: tell(alloc, &done, out, err),
            built: done.into_built(alloc),
            refusal: None,
        },
        Err(_) => end_refused(alloc, Refusal::Memory, out, err),
    }
}

/// The program `farm`. `words` are its arguments without its own name, and `env` is its environment, of which `DISTCC_HOSTS`,
/// `DISTCC_FALLBACK` and `DISTCC_BACKOFF_PERIOD` are read. There are 1 to 16 kits, in none of which a put is pending; the
/// input may not have ended, and neither sink may be stopped. It may wait for a slot or a worker.
///
/// Words are one command, or none; so one clause speaks of each call; `complete`, `complete_graph` and `complete_watch` say more of builds.
pub fn farm<
    T: Threads + Wait + Sync,
    D: Dialer + Send + Drop,
    S: Station + Send + Drop,
    K: Keeper + Send + Drop,
    C: Clock + Send + Drop,
    R: Source,
    O: Sink,
    E: Sink + Send,
>(
    rt: &T,
    alloc: Global,
    words: &[String],
    env: &[(String, String)],
    input: &mut R,
    kits: &mut Vec<Kit<D, S, K, C>>,
    out: &mut O,
    err: &mut E,
) -> Ended
where
    D::Link: Send,
    requires input { (R.shows input.old).ended ≡ false }
    requires kits { AreReady 1 (λ kit. IsIdle (K.shows kit.keeper)) kits.old.items }
    requires out { (O.shows out.old).stopped ≡ false }
    requires err { (E.shows err.old).stopped ≡ false }

    // Words that are no command: the place is that of the first that doesn't fit.
    ensures bad_words { (place : ℕ) → BadAt (map string_bytes words.now) place →
        OnlyPrinted (complaint (bad_words_text place)) bad_words_status
        (world R.shows O.shows E.shows input.old kits.old.items out.old err.old [])
        (world R.shows O.shows E.shows input.new kits.new.items out.new err.new result.built) result.status }

    // What each command does.
    ensures answers { (meant : Meaning) → IsCommand (map string_bytes words.now) meant →
        Does (devices D.shows S.shows K.shows C.shows D.may_give S.ran)
        (map (λ v. (string_bytes v.0, string_bytes v.1)) env.now)
        (world R.shows O.shows E.shows input.old kits.old.items out.old err.old [])
        (world R.shows O.shows E.shows input.new kits.new.items out.new err.new result.built) result.status meant }

    // If a refusal is handed back, it is the one that was printed, its status is the answer, and nothing was built.
    ensures refused { WasRefused result.refusal result.built (sinks_view O.shows E.shows out.old err.old)
        (sinks_view O.shows E.shows out.new err.new) result.status }

    // The whole input is a list of these jobs, and neither the source nor a sink failed or stopped: nothing is left unread, the
    // jobs were run, and the status is the number of their reports, or memory ran out.
    ensures complete { (config : JobConfig) (most : ℕ) (jobs : List (List (List ℕ))) →
        IsBuildBy (map string_bytes words.now)
        (map (λ v. (string_bytes v.0, string_bytes v.1)) env.now) config most →
        IsTrue (R.shows input.new).left.known → JobsOf (R.shows input.old).left.value jobs →
        IsSmooth (world R.shows O.shows E.shows input.old kits.old.items out.old err.old [])
        (world R.shows O.shows E.shows input.new kits.new.items out.new err.new result.built) →
        Completed (devices D.shows S.shows K.shows C.shows D.may_give S.ran) config most jobs
        (world R.shows O.shows E.shows input.old kits.old.items out.old err.old [])
        (world R.shows O.shows E.shows input.new kits.new.items out.new err.new result.built) result.status
        ⊎ (result.status ≡ memory_status) }

    // The same of a job graph: nothing is left unread, all its levels were run, and the status is the number of what became of its
    // jobs, or memory ran out.
    ensures complete_graph { (config : JobConfig) (most : ℕ) (graph : Graph) →
        IsGraphBy (map string_bytes words.now)
        (map (λ v. (string_bytes v.0, string_bytes v.1)) env.now) config most →
        IsTrue (R.shows input.new).left.known → GraphOf (R.shows input.old).left.value graph →
        IsSmooth (world R.shows O.shows E.shows input.old kits.old.items out.old err.old [])
        (world R.shows O.shows E.shows input.new kits.new.items out.new err.new result.built) →
        GraphCompleted (devices D.shows S.shows K.shows C.shows D.may_give S.ran) config most graph
        (world R.shows O.shows E.shows input.old kits.old.items out.old err.old [])
        (world R.shows O.shows E.shows input.new kits.new.items out.new err.new result.built) result.status
        ⊎ (result.status ≡ memory_status) }

    // The same of a watched build: and all its lines were printed, and the reports after them, or memory ran out.
    ensures complete_watch { (config : JobConfig) (most lines : ℕ) (jobs : List (List (List ℕ))) →
        IsWatchBy (map string_bytes words.now)
        (map (λ v. (string_bytes v.0, string_bytes v.1)) env.now) config most lines →
        IsTrue (R.shows input.new).left.known → JobsOf (R.shows input.old).left.value jobs →
        IsSmooth (world R.shows O.shows E.shows input.old kits.old.items out.old err.old [])
        (world R.shows O.shows E.shows input.new kits.new.items out.new err.new result.built) →
        WatchCompleted (devices D.shows S.shows K.shows C.shows D.may_give S.ran) config most lines jobs
        (world R.shows O.shows E.shows input.old kits.old.items out.old err.old [])
        (world R.shows O.shows E.shows input.new kits.new.items out.new err.new result.built) result.status
        ⊎ (result.status ≡ memory_status) }
{
    match parse_command(words) {
        Ok(command) => {
            let call = Invocation {
                alloc,
                command,
                env,
            };
            answer::<T, Kit<D, S, K, C>, R, O, E>(rt, call, input, kits, out, err)
        }
        Err(place) => end_refused(alloc, Refusal::Words { place }, out, err),
    }
}
