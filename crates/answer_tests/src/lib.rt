//! Tests of what is printed: the lines of reports and of a watched build, answers without a job, and job lists of compile
//! databases.
#![tactic(auto)]

#[cfg(test)]
mod answers;
#[cfg(test)]
mod database_program;
#[cfg(test)]
mod databases;
pub mod inputs;
#[cfg(test)]
mod reports;
#[cfg(test)]
mod same;
#[cfg(test)]
mod watching;
