//! Tests of the program `farm` over its own daemon's service and over devices for two threads.
#![tactic(auto)]

#[cfg(test)]
mod gates;
#[cfg(test)]
mod held;
#[cfg(test)]
mod honest;
#[cfg(test)]
mod loops;
#[cfg(test)]
mod pauses;
#[cfg(test)]
mod same;
#[cfg(test)]
mod services;
