//! Tests of what is read of words and lists: options, the class of a command, the words for a dependency file, job lists and graphs, host lists,
//! the command line of `farm`, and access rules.
#![tactic(auto)]

#[cfg(test)]
mod access;
#[cfg(test)]
mod classes;
#[cfg(test)]
mod command_lines;
#[cfg(test)]
mod dependencies;
#[cfg(test)]
mod host_lists;
#[cfg(test)]
mod job_graphs;
#[cfg(test)]
mod job_lists;
pub mod lines;
#[cfg(test)]
mod option_rows;
#[cfg(test)]
mod options;
#[cfg(test)]
mod same;
#[cfg(test)]
mod stripping;
