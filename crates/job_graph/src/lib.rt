//! The job graph: a job list with lines of needs, the depths of its jobs, and which jobs of a depth run (docs/job-graph.md).
#![tactic(auto)]

mod cut;
mod cycle;
mod depths;
mod fates;
mod fault;
mod graph;
mod laws;
mod line;
mod need;
mod reading;
mod walk;
mod waves;

pub use fates::{Fate, FateList, Wave};
pub use fault::{GraphError, GraphFault};
pub use graph::{Graph, depth, parse};
pub use laws::{all_good_or_blocked, needs_are_cut, one_depth_each};
pub use waves::wave;

/// Jobs by their places, which count from 0.
pub type Numbers = farm_types::Items<u32>;

/// What each job needs.
pub type NeedLists = farm_types::Items<Numbers>;
