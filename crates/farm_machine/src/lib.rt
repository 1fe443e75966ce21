//! The values that report what became of a job, the limits that a host list sets, and the check of a given run. The definitions of the
//! farm: jobs and their courses, the machine, the weave, and what a compiler may answer.
#![tactic(auto)]

mod checks;
mod following;
mod kinds;
mod legality;
mod limits;
mod reports;

pub use checks::{are_numbered, check_run};
pub use limits::limits_of;
pub use reports::{By, End, Event, EventList, Places, Report, ReportList, Why5};
