//! What `--help` and `--version` print (docs/daemon.md says the same).

ghost use Rattle.std.specs.Prelude.{◌≡◌};
ghost use Rattle.farmd_options.specs.Helps.{help, version};

/// What `farmd --version` prints.
const VERSION: &[u8] = b"farmd 0.1, distcc protocol 1\n";

/// What `farmd --help` prints.
const HELP: &[u8] = b"Usage: farmd [OPTION]...
Compiles for other machines, by distcc's protocol.

Options, in any order:
  --compiler NAME=PROGRAM  run PROGRAM for requests whose first word is NAME;
                           up to 64 times
  --port N                 listen on this port, in place of 3632
  --listen ADDRESS         listen on this IPv4 address, in place of 0.0.0.0
  --jobs N                 serve at most N connections at once, 1 to 16, in place
                           of 4
  --serve N                end after N connections at each of these doors, 1 to
                           100000, in place of 100000
  --allow ADDRESS[/BITS]   let in peers of this network
  --deny ADDRESS[/BITS]    leave peers of this network
  --cache N                answer repeated compiles from memory: at most N MiB at
                           each of these doors, 1 to 128
  --shared-cache N         the same from one memory for all doors, in place of
                           theirs: at most N MiB, 1 to 65536
  --tools FOLDER           let requests name FOLDER, or one below, as one of a
                           compiler's own parts: -B, --sysroot= and the like; up
                           to 16 times
  --job-lifetime SECONDS   end a compile after SECONDS, 0 to 1000000, in place of
                           600; 0 for none
  --trust-options          before all others: run requests with any options,
                           also those that read, write or run other things

The first rule that matches decides. Without rules every peer is let in; with
rules, one that matches none is not.

farmd prints what became of each connection when it ends.
";

/// The help.
pub fn help_text() -> &'static [u8]
    ensures { result.now ≡ help }
{
    HELP
}

/// The version.
pub fn version_text() -> &'static [u8]
    ensures { result.now ≡ version }
{
    VERSION
}
