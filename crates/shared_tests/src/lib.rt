//! Tests of stations that share a book.
#![tactic(auto)]

#[cfg(test)]
mod rows;
#[cfg(test)]
mod scripts;
#[cfg(test)]
mod threads;
