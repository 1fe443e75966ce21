//! Tests of one job over devices that follow scripts.
#![tactic(auto)]

#[cfg(test)]
mod bad_replies;
#[cfg(test)]
mod children;
#[cfg(test)]
mod exchanges;
#[cfg(test)]
mod expectations;
#[cfg(test)]
mod landings;
#[cfg(test)]
mod laws;
#[cfg(test)]
mod lengths;
#[cfg(test)]
mod rows;
#[cfg(test)]
mod same;
#[cfg(test)]
mod scripted;
#[cfg(test)]
mod several_hosts;
pub mod slots;
#[cfg(test)]
mod staying;
