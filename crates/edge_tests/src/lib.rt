//! Tests of the devices in memory by their scripts, of those for two threads, and of files put, in memory and on the disk.
#![tactic(auto)]

#[cfg(test)]
mod calls;
#[cfg(test)]
mod delivery;
pub mod devices;
#[cfg(test)]
mod disk;
#[cfg(test)]
mod gates;
#[cfg(test)]
mod keepers;
#[cfg(test)]
mod same;
#[cfg(test)]
mod scripted;
#[cfg(test)]
mod stations;
