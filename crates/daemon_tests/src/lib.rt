//! Tests of the daemon: its answer to a connection, its doors side by side, the program `farmd`, and a loop to it.
#![tactic(auto)]

#[cfg(test)]
mod beside;
#[cfg(test)]
mod connections;
pub mod devices;
pub mod lines;
#[cfg(test)]
mod loops;
#[cfg(test)]
mod programs;
#[cfg(test)]
mod same;
#[cfg(test)]
mod scripts;
#[cfg(test)]
mod service_faults;
#[cfg(test)]
mod services;
#[cfg(test)]
mod words;
