//! Tests of the sample language, its compiler, its linker, the compiler as a station, the program `scc`, and the generated workload.
#![tactic(auto)]

#[cfg(test)]
mod calls;
pub mod devices;
pub mod files;
#[cfg(test)]
mod link_programs;
#[cfg(test)]
mod links;
#[cfg(test)]
mod loads;
#[cfg(test)]
mod programs;
#[cfg(test)]
mod runs;
#[cfg(test)]
mod same;
#[cfg(test)]
mod sources;
#[cfg(test)]
mod stations;
