//! What `--help` and `--version` print (docs/usage.md says the same).

ghost use Rattle.std.specs.Prelude.{◌≡◌};
ghost use Rattle.farm_options.specs.Help as help;
ghost use Rattle.farm_options.specs.Help.{help_of, version};

use crate::name::CommandName;

/// What `farm --version` prints.
pub const VERSION: &[u8] = b"farm 0.1, distcc protocol 1\n";

/// What `farm --help` prints.
pub const PROGRAM_HELP: &[u8] = b"Usage: farm build --hosts 'build1/4 build2/4' --workers 8 <jobs
Compiles each line of the file jobs on build1 and build2, by distcc's protocol.

Usage: farm COMMAND [WORD]...
  build     do the jobs on standard input, one compile command a line
  watch     the same, and say meanwhile how many jobs have ended
  graph     as build, for jobs that may need one another
  cc        do one compile command, on the hosts of DISTCC_HOSTS: as the compiler's
            launcher, make CC='farm cc gcc'
  share     run make or another command, whose farm cc share the hosts' slots
  hosts     print the host list
  scan      say whether a compile command may be sent
  rehearse  do made-up jobs in memory, without a host or a compiler

farm COMMAND --help says more of a command; farm --version prints the version.

Environment:
  DISTCC_HOSTS           the host list, if --hosts gives none
  DISTCC_FALLBACK        if it is 0, as --no-fallback
  DISTCC_BACKOFF_PERIOD  for how many seconds a host that failed is not used,
                         0 to 1000000; 60 by default
  TMPDIR                 the folder of farm's own files, in place of /tmp

Exit status:
  0    everything was done
  100  standard output or standard error failed
  101  the words don't fit, or DISTCC_BACKOFF_PERIOD
  103  there was no link to the host
  104  a program ended in another way than by an exit code
  105  no memory
  106  the host list has a fault
  107  the input couldn't be read; a send, a receive, a program, a put or the
       reading of a source failed
  108  the host's reply was cut off
  109  the job list or a line of its needs, or a host's reply, has a fault
  116  no host was up, and the job may not be compiled here
  117  the job was skipped: another that it needs was not done with status 0
That of a build is that of its first job that wasn't done with status 0. Where
the compiler said no, it is its own.

Faults by their numbers:
  host list   1 NAME@HOST, 2 a comma, 3 +zeroconf, 4 a bad port, 5 a bad limit,
              6 a bad name, 7 more than 16 entries, 8 an option that isn't known
  job list    1 an open quote, 2 a backslash at the end of a line, 3 no jobs,
              4 more than 512 jobs, 5 more than 16777216 bytes, 6 an output that
              an earlier job has, 7 no UTF-8 or a zero byte
  needs       1 a word that is no number of a job, 2 no job after the line
  reply       1 a wrong name of a token, 2 a bad digit, 3 another version, 5 a
              length above its limit, 6 an object beside a failure
";

/// What `farm build --help` prints.
pub const BUILD_HELP: &[u8] = b"Usage: farm build [OPTION]...
Does the jobs on standard input: one compile command a line, with a shell's
quotes and backslashes, 512 at most. A job that may be sent is preprocessed here
and compiled on a host that has a slot; every other one is done here. Then it
prints a line for each job, in their order.

Options, in any order, each at most once:
  --hosts LIST   the host list, in place of DISTCC_HOSTS
  --workers N    do at most N jobs at once, 1 to 16; 4 by default
  --tries N      try at most N hosts for a job, 1 to 16; 1 by default
  --no-fallback  don't compile here what no host compiled
  --no-retry     don't compile here what failed on a host

The host list: words apart by blanks, 16 hosts at most; # begins a comment.
  NAME[:PORT][/LIMIT]    a host, by default at port 3632 and with 4 jobs at once
  localhost[/LIMIT]      this machine, without the network: 2 jobs at once
  --localslots=N         N jobs at once here that no host does; 4
  --localslots_cpp=N     is read, and limits nothing
  --randomize            jobs begin at different hosts
farm hosts prints it as it is read. A compile database becomes a job list by
farm_jobs.
";

/// What `farm watch --help` prints.
pub const WATCH_HELP: &[u8] = b"Usage: farm watch [OPTION]...
Does the jobs on standard input as farm build does. While they are done it prints
on standard error, about each second, how far it has come, and then what farm
build prints.

  watch I ended E of N busy B     line I: E of N jobs have ended, B are under way
  watch last ended N of N busy 0  all jobs have ended
  watch last no memory            the same, without memory for the lines

  --lines N      print at most N lines before the last, 1 to 100; by default 10

The other options and the host list are those of farm build. One of the 16 workers
that there may be keeps the time, so at most 15 jobs are done at once.
";

/// What `farm graph --help` prints.
pub const GRAPH_HELP: &[u8] = b"Usage: farm graph [OPTION]...
Does the jobs on standard input as farm build does, but level by level: a job
is run only when all that it needs were done with status 0. It is skipped if
one of them wasn't. Then it prints a line for each job, in their order.

  needs: N...    a line of the list; the next job needs these jobs, by their
                 numbers, which count from 1. Several such lines add up.

The options and the host list are those of farm build.
";

/// What `farm cc --help` prints.
pub const CC_HELP: &[u8] = b"Usage: farm cc WORD...
Does the compile command that the words are, on the hosts of DISTCC_HOSTS, and
ends with the compiler's exit code. A command that may not be sent is run here
as it stands.

Each command asks the hosts in the order of the list, from the first on. With
--randomize in the list each process begins at another one, so that make -j
uses them all. Below farm share each is given a slot of a host.
";

/// What `farm share --help` prints.
pub const SHARE_HELP: &[u8] = b"Usage: farm share [--hosts LIST] COMMAND [WORD]...
Runs COMMAND, and gives slots of the hosts to all farm cc below it, so that each
host has as many jobs at once as its limit says. It ends as COMMAND does:

  farm share make -j16 CC='farm cc gcc'

Who asks first is served first. A host that failed is asked by nobody until its
back-off ends. Commands that may not be sent wait for a local slot. A farm share
below another one uses the slots of that one, unless it has its own --hosts.

  --hosts LIST   the host list, in place of DISTCC_HOSTS

The status is that of COMMAND, 128 + N if signal N ended it, and 107 if it can't
be started.
";

/// What `farm hosts --help` prints.
pub const HOSTS_HELP: &[u8] = b"Usage: farm hosts [--hosts LIST]
Prints the host list as farm reads it, one host a line.

  --hosts LIST   the host list, in place of DISTCC_HOSTS
";

/// What `farm scan --help` prints.
pub const SCAN_HELP: &[u8] = b"Usage: farm scan WORD...
Prints the class of the compile command that the words are: remote, with its
action, source and output, if it may be sent; or local, with the number and
the place of the reason, if it has to be done here.

The reasons:
   1 neither -c nor -S         2 both of them            3 -E
   4 -M or -MM                 5 no source               6 two sources
   7 this machine's processor  8 profiles or coverage    9 -frepo
  10 -specs=                  11 -x                     12 -save-temps
  13 -d.. or -fdump-..        14 a listing of assembly  15 @FILE
  16 conftest.*               17 - as a file            18 no operand
  19 two outputs              20 another word           21 a file of its own
  22 an output that ends in .farm~
";

/// What `farm rehearse --help` prints.
pub const REHEARSE_HELP: &[u8] = b"Usage: farm rehearse N
Does N made-up jobs, 1 to 512, in memory, by the program's own daemon and sample
compiler, without a host, a network or a compiler. Prints how many of them were
done with status 0, and how many bytes their objects have together.
";

fn program_help() -> &'static [u8]
    ensures { result.now ≡ help.program_help }
{
    PROGRAM_HELP
}

fn build_help() -> &'static [u8]
    ensures { result.now ≡ help.build_help }
{
    BUILD_HELP
}

fn watch_help() -> &'static [u8]
    ensures { result.now ≡ help.watch_help }
{
    WATCH_HELP
}

fn scan_help() -> &'static [u8]
    ensures { result.now ≡ help.scan_help }
{
    SCAN_HELP
}

/// The help of `farm share`.
pub fn share_help() -> &'static [u8]
    ensures { result.now ≡ help.share_help }
{
    SHARE_HELP
}

/// The help of a command, or of the program if no command is named.
pub fn help_text(name: Option<CommandName>) -> &'static [u8]
    ensures { result.now ≡ help_of name }
{
    match name {
        None => program_help(),
        Some(CommandName::Build) => build_help(),
        Some(CommandName::Watch) => watch_help(),
        Some(CommandName::Graph) => GRAPH_HELP,
        Some(CommandName::Cc) => CC_HELP,
        Some(CommandName::Hosts) => HOSTS_HELP,
        Some(CommandName::Scan) => scan_help(),
        Some(CommandName::Rehearse) => REHEARSE_HELP,
    }
}

/// The program's version.
pub fn version_text() -> &'static [u8]
    ensures { result.now ≡ version }
{
    VERSION
}
