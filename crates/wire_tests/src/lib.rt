//! Tests of the wire: tokens, requests and replies, whole and in pieces.
#![tactic(auto)]

pub mod limits;
#[cfg(test)]
mod replies;
#[cfg(test)]
mod requests;
#[cfg(test)]
mod same;
#[cfg(test)]
mod streams;
#[cfg(test)]
mod tokens;
