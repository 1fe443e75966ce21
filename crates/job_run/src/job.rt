//! The course of one job.
ghost use Rattle.std.specs.Prelude.{◌≡◌, ℕ, ◌<◌, false, List, [], IfOk, OnErr};
ghost use Rattle.farm_types.specs.declared.jobs.JobConfig.{JobConfig};
ghost use Rattle.arg_strip.specs.Words.{stripped};
ghost use Rattle.edge_traits.specs.Keepers.{IsIdle};
ghost use Rattle.edge_traits.specs.Kits.{kit_view};
ghost use Rattle.edge_traits.specs.Told.{SameRelation, SameRelation3};
ghost use Rattle.farm_machine.specs.Course.{Start, Send};
ghost use Rattle.farm_machine.specs.Jobs.{job_of, may_be_sent, AreLimitsOf};
ghost use Rattle.job_run.specs.Events.{local_events, compile_events, sent_events};
ghost use Rattle.job_run.specs.JobRuns.{JobRan, CanRun, CanBegin, HasReturned};
ghost use Rattle.job_run.specs.Seen.{seen, job_asked, job_in, IsFree, StaysFree};
ghost use Rattle.job_run.specs.Stages.{CompiledIs};
ghost use Rattle.job_run.specs.Went.{HasEnded};

use crate::EventRoom;
use crate::ending::deliver;
use crate::giving::give_back_local;
use crate::journal::Journal;
use crate::local_fallback::compile_here;
use crate::preparing::{Prepared, prepare};
use crate::sending::ask_if_fits;
use crate::step::{Compiled, Step, done_in_place, why_not_run};
use crate::task::{Command, Task};
use crate::waiting::borrow_local;
use arg_scan::{Scan, scan};
use arg_strip::strip_to;
use child_runner::in_place;
use edge_traits::{Clock, Dialer, Keeper, Kit, Station};
use farm_machine::{End, Event, EventList, Places, Report, Why5};
use farm_types::{Bytes, JobConfig, Request, Words};
use kit_types::Observed;
use slot_table::Grants;
use std::alloc::{AllocError, Global};
use std::sync::Wait;

/// Runs a command that stays here, in a local slot.
fn run_in_place<R: Wait, D: Dialer, S: Station, K: Keeper, C: Clock, G: Grants>(
    rt: &R,
    command: &Command<'_>,
    grants: &mut G,
    kit: &mut Kit<D, S, K, C>,
    journal: &mut Journal,
) -> End
    requires idle { IsIdle (K.shows kit.old.keeper) }
    requires free { IsFree G.ready G.alone G.spare G.mine grants.old journal.old.left local_events }
    ensures free { StaysFree G.ready G.alone G.spare G.mine grants.old grants.new journal.old.left journal.new.left local_events }
    ensures follows { G.follows grants.old grants.new }
    ensures idle { IsIdle (K.shows kit.new.keeper) }
    ensures ended { may_be_sent (job_asked command.now) ≡ false →
        HasEnded (job_asked command.now) (G.limits grants.old) (G.caller_number grants.old) command.now.number
        (seen ⟦<Kit<D, S, K, C> as Observed>⟧.devices kit.old (G.mine grants.old) journal.old)
        (seen ⟦<Kit<D, S, K, C> as Observed>⟧.devices kit.new (G.mine grants.new) journal.new)
        Start result }
{
    let grant = borrow_local(rt, command.number, grants, &mut kit.clock);
    journal.note(Event::TookLocal);
    match in_place(command.alloc, command.words, &mut kit.station) {
        Ok(ran) => {
            journal.ran();
            give_back_local(grant, grants, journal);
            done_in_place(command.alloc, ran)
        }
        Err(fault) => {
            give_back_local(grant, grants, journal);
            End::Failed(why_not_run(fault))
        }
    }
}

/// The words that are sent for the job, whose output is named already.
fn words_to_send(task: &Task<'_>) -> Result<Words, AllocError>
    ensures { IfOk result (λ sent. sent ≡ stripped task.now.words.now) }
{
    strip_to(task.alloc, task.words, task.output.copy()?)
}

/// Compiles a source elsewhere, or here.
fn compile_source<R: Wait, D: Dialer, S: Station, K: Keeper, C: Clock, G: Grants>(
    rt: &R,
    task: &Task<'_>,
    source: Bytes,
    grants: &mut G,
    kit: &mut Kit<D, S, K, C>,
    journal: &mut Journal,
) -> Result<Compiled, Why5>
    requires hosts { AreLimitsOf (G.limits grants.old) task.now.config.now.hosts }
    requires idle { IsIdle (K.shows kit.old.keeper) }
    requires free { IsFree G.ready G.alone G.spare G.mine grants.old journal.old.left compile_events }
    ensures free { StaysFree G.ready G.alone G.spare G.mine grants.old grants.new journal.old.left journal.new.left compile_events }
    ensures follows { G.follows grants.old grants.new }
    ensures idle { OnErr result (IsIdle (K.shows kit.new.keeper)) }
    ensures compiled { (note : List ℕ) → CompiledIs (job_in task.now) (G.limits grants.old) (G.caller_number grants.old) task.now.number
        (seen ⟦<Kit<D, S, K, C> as Observed>⟧.devices kit.old (G.mine grants.old) journal.old)
        (seen ⟦<Kit<D, S, K, C> as Observed>⟧.devices kit.new (G.mine grants.new) journal.new)
        (Send source note []) note result }
{
    let Ok(sent) = words_to_send(task) else {
        return Err(Why5::Memory);
    };
    let request = Request {
        words: sent,
        source,
    };
    match ask_if_fits(rt, task, &request, grants, kit, journal) {
        Step::Compiled(compiled) => Ok(compiled),
        Step::Failed(why) => Err(why),
        Step::Here => {
            let outcome = compile_here(rt, task, &request.source, grants, kit, journal)?;
            Ok(Compiled::OnThisMachine(outcome))
        }
    }
}

/// Does a job whose command may be sent.
fn run_remote<R: Wait, D: Dialer, S: Station, K: Keeper, C: Clock, G: Grants>(
    rt: &R,
    task: &Task<'_>,
    grants: &mut G,
    kit: &mut Kit<D, S, K, C>,
    journal: &mut Journal,
) -> End
    requires hosts { AreLimitsOf (G.limits grants.old) task.now.config.now.hosts }
    requires idle { IsIdle (K.shows kit.old.keeper) }
    requires free { IsFree G.ready G.alone G.spare G.mine grants.old journal.old.left sent_events }
    ensures free { StaysFree G.ready G.alone G.spare G.mine grants.old grants.new journal.old.left journal.new.left sent_events }
    ensures follows { G.follows grants.old grants.new }
    ensures idle { IsIdle (K.shows kit.new.keeper) }
    ensures ended { HasEnded (job_in task.now) (G.limits grants.old) (G.caller_number grants.old) task.now.number
        (seen ⟦<Kit<D, S, K, C> as Observed>⟧.devices kit.old (G.mine grants.old) journal.old)
        (seen ⟦<Kit<D, S, K, C> as Observed>⟧.devices kit.new (G.mine grants.new) journal.new)
        Start result }
{
    let (source, note) = match prepare(task, kit, journal) {
        Prepared::Ready { source, note } => (source, note),
        Prepared::Over(end) => return end,
    };
    match compile_source(rt, task, source, grants, kit, journal) {
        Ok(compiled) => deliver(task, compiled, note, kit, journal),
        Err(why) => End::Failed(why),
    }
}

/// Does a job by its class.
fn run_class<R: Wait, D: Dialer, S: Station, K: Keeper, C: Clock, G: Grants>(
    rt: &R,
    command: &Command<'_>,
    grants: &mut G,
    kit: &mut Kit<D, S, K, C>,
    journal: &mut Journal,
) -> End
    requires hosts { AreLimitsOf (G.limits grants.old) command.now.config.now.hosts }
    requires idle { IsIdle (K.shows kit.old.keeper) }
    requires free { IsFree G.ready G.alone G.spare G.mine grants.old journal.old.left sent_events }
    ensures free { StaysFree G.ready G.alone G.spare G.mine grants.old grants.new journal.old.left journal.new.left sent_events }
    ensures follows { G.follows grants.old grants.new }
    ensures idle { IsIdle (K.shows kit.new.keeper) }
    ensures ended { HasEnded (job_asked command.now) (G.limits grants.old) (G.caller_number grants.old) command.now.number
        (seen ⟦<Kit<D, S, K, C> as Observed>⟧.devices kit.old (G.mine grants.old) journal.old)
        (seen ⟦<Kit<D, S, K, C> as Observed>⟧.devices kit.new (G.mine grants.new) journal.new)
        Start result }
{
    let Command {
        alloc,
        words,
        number,
        config,
    } = *command;
    match scan(alloc, words) {
        Scan::Remote {
            input,
            output,
            preprocessed,
            ..
        } => {
            let task = Task {
                alloc,
                words,
                number,
                config,
                input,
                preprocessed,
                output: &output,
            };
            run_remote(rt, &task, grants, kit, journal)
        }
        Scan::Memory => End::Failed(Why5::Memory),
        Scan::Empty | Scan::Local { .. } => run_in_place(rt, command, grants, kit, journal),
    }
}

/// Runs one job, and reports all that it did. `number` is the job's, counted from 0.
///
/// A command that may not be sent is run here unchanged. The source of any other is preprocessed, or fetched if it is preprocessed already,
/// and a host is asked to compile it. If none can, it is compiled here, as `config` says. An object of status 0 is put under the output's
/// name. Each slot that the job takes is given back before it returns. It waits for slots.
pub fn run_job<R: Wait, D: Dialer, S: Station, K: Keeper, C: Clock, G: Grants>(
    rt: &R,
    alloc: Global,
    words: &Words,
    number: u32,
    config: &JobConfig,
    grants: &mut G,
    kit: &mut Kit<D, S, K, C>,
    places: &mut Places,
    room: EventRoom,
) -> Report
    requires job { CanRun words.now config.now (G.limits grants.old) }
    requires begins { CanBegin G.ready G.alone G.spare G.mine grants.old places.old (K.shows kit.old.keeper) }
    ensures number { result.number ≡ number }
    ensures worker { result.worker ≡ G.caller_number grants.old }
    ensures ran { JobRan (D.may_give kit.new.dialer) (S.ran kit.new.station) (job_of words.now config.now)
        (G.limits grants.old) (G.caller_number grants.old) number places.old places.new result.events result.end
        (G.mine grants.old) (G.mine grants.new)
        (kit_view D.shows S.shows K.shows C.shows kit.old)
        (kit_view D.shows S.shows K.shows C.shows kit.new) }
    ensures returned { HasReturned G.ready G.alone G.spare G.mine G.follows grants.old grants.new (K.shows kit.new.keeper) }

    // What the dialer's peers may give and the station's programs leave stays the same.
    ensures peers { SameRelation (D.may_give kit.old.dialer) (D.may_give kit.new.dialer) }
    ensures programs { SameRelation3 (S.ran kit.old.station) (S.ran kit.new.station) }
{
    let mut journal = Journal::open(room, *places);
    let command = Command {
        alloc,
        words,
        number,
        config,
    };
    let end = run_class(rt, &command, grants, kit, &mut journal);
    *places = journal.places;
    Report {
        number,
        worker: grants.caller(),
        events: EventList::from_vec(journal.events),
        end,
    }
}
