//! Tests of the program `farm` over devices that follow scripts: what it prints, answers and puts.
#![tactic(auto)]

#[cfg(test)]
mod command_rows;
#[cfg(test)]
mod devices;
#[cfg(test)]
mod faults;
#[cfg(test)]
mod files;
#[cfg(test)]
mod graphs;
#[cfg(test)]
mod jobs;
#[cfg(test)]
mod rehearsals;
#[cfg(test)]
mod same;
#[cfg(test)]
mod watching;
#[cfg(test)]
mod words;
#[cfg(test)]
mod workers;
