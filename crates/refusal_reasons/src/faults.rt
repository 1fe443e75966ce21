//! What is printed for the faults of host lists, job lists and lines of needs.

ghost use Rattle.std.specs.Prelude.{◌≡◌};
ghost use Rattle.refusal_reasons.specs.Faults.{host_reason, job_reason, needs_reason};

use host_list::HostFault;
use job_graph::GraphFault;
use job_list::JobFault;

/// What is wrong with a word of a host list that has this fault.
pub fn host_reason(fault: HostFault) -> &'static str
    ensures { result.now ≡ host_reason fault }
{
    match fault {
        HostFault::Ssh => "hosts aren't reached through ssh",
        HostFault::HostOption => "host options aren't taken",
        HostFault::Zeroconf => "hosts aren't sought by zeroconf",
        HostFault::BadPort => "a port has to be a number from 1 to 65535",
        HostFault::BadLimit => "a limit has to be a number from 1 to 255",
        HostFault::BadName => "no host has such a name",
        HostFault::TooMany => "it is the 17th host, and 16 are taken",
        HostFault::UnknownOption => "this option isn't known",
    }
}

/// What is wrong with a line of a job list that has this fault, or with the list.
pub fn job_reason(fault: JobFault) -> &'static str
    ensures { result.now ≡ job_reason fault }
{
    match fault {
        JobFault::OpenQuote => "a quote isn't closed on its line",
        JobFault::BadEscape => "the last byte of the line is a backslash",
        JobFault::NoJobs => "no line of the list is a job",
        JobFault::TooMany => "it is the 513th job, and 512 are taken",
        JobFault::TooLong { .. } => "the list has more than 16777216 bytes",
        JobFault::SameOutput { .. } => "an earlier job writes the same output",
        JobFault::NotText => "the line isn't UTF-8, or holds a zero byte",
    }
}

/// What is wrong with a line of needs that has this fault.
pub fn needs_reason(fault: GraphFault) -> &'static str
    ensures { result.now ≡ needs_reason fault }
{
    match fault {
        GraphFault::BadNeed => "each word after needs: has to be the number of a job",
        GraphFault::NoJobAfter => "no job follows the line",
    }
}
