//! The exit statuses of the programs, and the exit code of a wait status.

ghost use Rattle.std.specs.Prelude.{◌≡◌};
ghost use Rattle.farm_types.specs.Exits.{exit_code_of};

/// A sink failed or took 0 bytes.
pub const STOPPED: u8 = 100;
/// The words of a command, or what its environment says, don't fit.
pub const BAD_WORDS: u8 = 101;
/// No link to a host could be made.
pub const NO_LINK: u8 = 103;
/// A wait status that gives no exit code of its own.
pub const NO_CODE: u8 = 104;
/// Memory ran out.
pub const NO_MEMORY: u8 = 105;
/// The host list has a fault.
pub const BAD_HOSTS: u8 = 106;
/// An input, a file, a program or a link failed.
pub const FAULT: u8 = 107;
/// A reply ended too early.
pub const TRUNCATED: u8 = 108;
/// A text is out of form: a job list, a compile database or a reply.
pub const BAD_TEXT: u8 = 109;
/// No host could be asked.
pub const NO_HOST: u8 = 116;
/// A job was left out, since one that it needs went wrong.
pub const SKIPPED: u8 = 117;

/// The exit code of a Unix wait status: 0 for status 0, the compiler's own code if it ended by itself
/// with one other than 0, and 104 for everything else, such as death by a signal. It takes no memory.
pub fn exit_code(status: u32) -> u8
    ensures { result ≡ exit_code_of status }
{
    if status == 0 {
        return 0;
    }
    let code = status / 256 % 256;
    if status % 128 != 0 || code == 0 {
        NO_CODE
    } else {
        code as u8
    }
}
