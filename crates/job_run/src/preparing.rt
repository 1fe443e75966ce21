// The source of a job whose command may be sent.
ghost use Rattle.std.specs.Prelude.{◌≡◌, ℕ, ◌+◌, ◌<◌, ◌≤◌, true, false, List, length};
ghost use Rattle.farm_types.specs.Limits.{preprocessed_max};
ghost use Rattle.farm_types.specs.declared.jobs.JobConfig.{JobConfig};
ghost use Rattle.arg_scan.specs.Class.{IsRemote, plan_of};
ghost use Rattle.arg_scan.specs.Names.{is_preprocessed};
ghost use Rattle.arg_scan.specs.Roles.{word_at};
ghost use Rattle.edge_traits.specs.FileMaps.{IsStaged};
ghost use Rattle.edge_traits.specs.Keepers.{IsIdle};
ghost use Rattle.slot_table.specs.declared.limits.Limits.{Limits};
ghost use Rattle.slot_table.specs.declared.calls.CallEntry.{CallEntry};
ghost use Rattle.farm_machine.specs.Jobs.{Job, job_of, may_be_sent, is_source_ready, source_name};
ghost use Rattle.job_run.specs.Stages.{PreparedIs, FetchedIs};
ghost use Rattle.job_run.specs.Seen.{seen, job_in};

use crate::journal::Journal;
use crate::step::{done_by_preprocessor, why_not_fetched, why_not_run};
use crate::task::Task;
use child_runner::preprocess;
use edge_traits::{Clock, Dialer, Keeper, Kit, Station};
use farm_machine::End;
use farm_types::limits::PREPROCESSED_MAX;
use farm_types::{Bytes, Words};
use kit_types::Observed;
use std::alloc::Global;

/// A preprocessed source, and the note, which is what the preprocessor wrote to standard error; or the end of a job that has
/// none.
#[derive(Drop)]
pub(crate) enum Prepared {
    Ready { source: Bytes, note: Bytes },
    Over(End),
}

/// The word at a place.
fn name_at(words: &Words, at: usize) -> &Bytes
    requires { at < length words.now }
    ensures { result.now ≡ word_at words.now at }
{
    &words.as_slice()[at]
}

/// Fetches the source that is preprocessed already.
fn fetch_source<D: Dialer, S: Station, K: Keeper, C: Clock>(
    alloc: Global,
    name: &Bytes,
    kit: &mut Kit<D, S, K, C>,
    journal: &mut Journal,
) -> Prepared
    requires name { ¬ (IsStaged name.now) }
    requires idle { IsIdle (K.shows kit.old.keeper) }
    requires left { 1 ≤ journal.old.left }
    ensures left { journal.old.left ≤ journal.new.left + 1 }
    ensures fell { journal.new.left ≤ journal.old.left }
    ensures idle { IsIdle (K.shows kit.new.keeper) }
    ensures fetched { FetchedIs name.now preprocessed_max (K.shows kit.old.keeper) (K.shows kit.new.keeper) result }
    ensures prepared { (h : ℕ) (l : Limits h) (caller number : ℕ) (mine : List CallEntry) (j : Job) →
        may_be_sent j ≡ true → is_source_ready j ≡ true → source_name j ≡ name.now →
        PreparedIs j l caller number
        (seen ⟦<Kit<D, S, K, C> as Observed>⟧.devices kit.old mine journal.old)
        (seen ⟦<Kit<D, S, K, C> as Observed>⟧.devices kit.new mine journal.new)
        result }
{
    match kit.keeper.fetch(alloc, name, PREPROCESSED_MAX) {
        Ok(source) => {
            journal.fetched();
            Prepared::Ready {
                source,
                note: Bytes::new(alloc),
            }
        }
        Err(fault) => Prepared::Over(End::Failed(why_not_fetched(fault))),
    }
}

/// Preprocesses the source here.
fn preprocess_source<D: Dialer, S: Station, K: Keeper, C: Clock>(
    alloc: Global,
    words: &Words,
    kit: &mut Kit<D, S, K, C>,
    journal: &mut Journal,
) -> Prepared
    requires remote { IsRemote words.now }
    requires source { is_preprocessed (plan_of words.now).ending ≡ false }
    requires idle { IsIdle (K.shows kit.old.keeper) }
    requires left { 1 ≤ journal.old.left }
    ensures left { journal.old.left ≤ journal.new.left + 1 }
    ensures fell { journal.new.left ≤ journal.old.left }
    ensures idle { IsIdle (K.shows kit.new.keeper) }
    ensures prepared { (h : ℕ) (l : Limits h) (caller number : ℕ) (mine : List CallEntry) (config : JobConfig) →
        PreparedIs (job_of words.now config) l caller number
        (seen ⟦<Kit<D, S, K, C> as Observed>⟧.devices kit.old mine journal.old)
        (seen ⟦<Kit<D, S, K, C> as Observed>⟧.devices kit.new mine journal.new)
        result }
{
    match preprocess(alloc, words, &mut kit.station) {
        Ok(ran) => {
            journal.ran();
            if ran.status != 0 {
                return Prepared::Over(done_by_preprocessor(alloc, ran));
            }
            Prepared::Ready {
                source: ran.out,
                note: ran.err,
            }
        }
        Err(fault) => Prepared::Over(End::Failed(why_not_run(fault))),
    }
}

/// The source of a job, which is fetched if it is preprocessed already and else is preprocessed here.
pub(crate) fn prepare<D: Dialer, S: Station, K: Keeper, C: Clock>(
    task: &Task<'_>,
    kit: &mut Kit<D, S, K, C>,
    journal: &mut Journal,
) -> Prepared
    requires idle { IsIdle (K.shows kit.old.keeper) }
    requires left { 1 ≤ journal.old.left }
    ensures left { journal.old.left ≤ journal.new.left + 1 }
    ensures fell { journal.new.left ≤ journal.old.left }
    ensures idle { IsIdle (K.shows kit.new.keeper) }
    ensures prepared { (h : ℕ) (l : Limits h) (caller number : ℕ) (mine : List CallEntry) →
        PreparedIs (job_in task.now) l caller number
        (seen ⟦<Kit<D, S, K, C> as Observed>⟧.devices kit.old mine journal.old)
        (seen ⟦<Kit<D, S, K, C> as Observed>⟧.devices kit.new mine journal.new)
        result }
{
    if task.preprocessed {
        let name = name_at(task.words, task.input as usize);
        return fetch_source(task.alloc, name, kit, journal);
    }
    preprocess_source(task.alloc, task.words, kit, journal)
}
