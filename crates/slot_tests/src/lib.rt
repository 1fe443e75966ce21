//! Tests of the slots of hosts, used by one thread and shared among threads, of the check of a run, and of the board of a worker's
//! progress.
#![tactic(auto)]

#[cfg(test)]
mod boards;
pub mod callers;
#[cfg(test)]
mod cell_calls;
#[cfg(test)]
mod cell_entries;
#[cfg(test)]
mod cell_histories;
#[cfg(test)]
mod cell_orders;
#[cfg(test)]
mod failing_hosts;
#[cfg(test)]
mod machine;
#[cfg(test)]
mod same;
#[cfg(test)]
mod slots;
