//! What a command comes to, and what is done of it: a list, a graph level by level, one command, or nothing.
ghost use Rattle.std.specs.Prelude.{◌≡◌, IfOk, OnErr};
ghost use Rattle.edge_traits.specs.Keepers.{IsIdle};
ghost use Rattle.farm_program.specs.Worlds.{AreReady};
ghost use Rattle.farm_program.specs.Works.{CanDo, WorkDone, built_of};

use crate::graph::run_graph;
use crate::jobs::{BuiltList, run_list};
use crate::outcomes::State;
use crate::rehearsing::run_rehearsal;
use crate::watch::run_watched;
use edge_traits::Sink;
use farm_answers::Text;
use farm_types::{Hosts, Items, JobConfig, Jobs};
use job_driver::LineEnd;
use job_graph::Graph;
use kit_types::{KitOf, KitTypes, Observed};
use rehearsal::Count;
use std::alloc::{AllocError, Global};
use std::sync::Wait;
use std::thread::Threads;

/// A list of jobs, how they are run, and by how many workers at most.
#[derive(Drop)]
pub struct ListWork {
    pub config: JobConfig,
    pub most: u8,
    pub jobs: Jobs,
}

/// A graph of jobs, how they are run, and by how many workers at most.
#[derive(Drop)]
pub struct GraphWork {
    pub config: JobConfig,
    pub most: u8,
    pub graph: Graph,
}

/// What a command comes to before a job is run.
#[derive(Drop)]
pub enum Work {
    /// A text for the output, and no job.
    Say(Text),
    /// One job, by one worker.
    Command(ListWork),
    /// All jobs of a list.
    List(ListWork),
    /// All jobs of a list, while that many lines report on them.
    Watched { list: ListWork, lines: u8 },
    /// All jobs of a graph, level by level.
    Graph(GraphWork),
    /// That many jobs of the workload, over kits of its own.
    Rehearse { jobs: u32 },
}

/// What became of it, and what is printed of that.
#[derive(Drop)]
pub enum Done {
    /// There was nothing but a text.
    Said(Text),
    /// One job was run.
    Command {
        hosts: Hosts,
        built: BuiltList,
    },
    /// The jobs of a list were run.
    List {
        hosts: Hosts,
        built: BuiltList,
    },
    /// They were run while lines reported on them, whose printing ended so.
    Watched {
        hosts: Hosts,
        built: BuiltList,
        end: LineEnd,
    },
    /// All levels of a graph were run, and this became of its jobs.
    Graph {
        hosts: Hosts,
        built: BuiltList,
        states: Items<State>,
    },
    /// Memory ran out before a level of a graph.
    Cut {
        built: BuiltList,
    },
    /// Jobs of the workload were run.
    Rehearsed {
        jobs: u32,
        count: Option<Count>,
        built: BuiltList,
    },
}

impl Done {
    /// What was built.
    pub fn into_built(self, alloc: Global) -> BuiltList
        ensures { result ≡ built_of self }
    {
        match self {
            Done::Said(_) => BuiltList::new(alloc),
            Done::Command { built, .. } => built,
            Done::List { built, .. } => built,
            Done::Watched { built, .. } => built,
            Done::Graph { built, .. } => built,
            Done::Cut { built } => built,
            Done::Rehearsed { built, .. } => built,
        }
    }
}

/// Does it. An error says that memory ran out before the first job began.
pub fn carry_out<T: Threads + Wait + Sync, X: KitTypes, E: Sink + Send>(
    rt: &T,
    alloc: Global,
    work: Work,
    kits: &mut Vec<KitOf<X>>,
    err: &mut E,
) -> Result<Done, AllocError>
    requires work { CanDo work }
    requires kits { AreReady 1 (λ kit. IsIdle (X.Keeper.shows kit.keeper)) kits.old.items }
    ensures done { IfOk result (λ done. WorkDone ⟦<KitOf<X> as Observed>⟧.devices
        kits.old.items kits.new.items (E.shows err.old) (E.shows err.new) work done) }
    ensures undone { OnErr result ((kits.new.items ≡ kits.old.items) × (err.new ≡ err.old)) }
{
    match work {
        Work::Say(text) => Ok(Done::Said(text)),
        Work::Command(list) => {
            let built = run_list::<T, X>(rt, alloc, &list, kits)?;
            Ok(Done::Command {
                hosts: list.config.hosts,
                built,
            })
        }
        Work::List(list) => {
            let built = run_list::<T, X>(rt, alloc, &list, kits)?;
            Ok(Done::List {
                hosts: list.config.hosts,
                built,
            })
        }
        Work::Watched { list, lines } => run_watched::<T, X, E>(rt, alloc, list, lines, kits, err),
        Work::Graph(plan) => run_graph::<T, X>(rt, alloc, plan, kits),
        Work::Rehearse { jobs } => run_rehearsal(rt, alloc, jobs),
    }
}
