//! Tests of the devices of the system, but for its files: sockets, each against a peer of its own, programs, streams and the clock.
#![tactic(auto)]

#[cfg(test)]
mod children;
pub mod rules;
#[cfg(test)]
mod same;
#[cfg(test)]
mod sockets;
#[cfg(test)]
mod streams;
