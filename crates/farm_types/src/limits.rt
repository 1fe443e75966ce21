//! The limits of the farm, in bytes if nothing else is said.

/// The most words of a request.
pub const WORDS_MAX: usize = 1_024;
/// The most bytes of one word of a request.
pub const WORD_MAX: usize = 65_536;
/// The most bytes of all words of a request together.
pub const WORDS_BYTES_MAX: usize = 1_048_576;
/// The most bytes of a source.
pub const SOURCE_MAX: usize = 33_554_432;
/// The most bytes of an object.
pub const OBJECT_MAX: usize = 33_554_432;
/// The most bytes of messages on one stream of a reply.
pub const MESSAGES_MAX: usize = 1_048_576;
/// The most bytes that a preprocessor may write, and that a fetched source may have.
pub const PREPROCESSED_MAX: u32 = 41_943_040;
/// The most bytes of standard output of a job that runs in place.
pub const IN_PLACE_OUT_MAX: u32 = 8_388_608;
/// The most bytes of standard error of any child.
pub const CHILD_ERR_MAX: u32 = 1_048_576;
/// The most bytes of standard output of a compile.
pub const COMPILE_OUT_MAX: u32 = 1_048_576;
/// The most bytes of the text of a job list.
pub const JOB_LIST_MAX: usize = 16_777_216;
/// The most jobs of one list.
pub const JOBS_MAX: usize = 512;
/// The most workers of `farm` and of `farmd`.
pub const WORKERS_MAX: usize = 16;
/// The workers if no number is given.
pub const WORKERS_DEFAULT: usize = 4;
/// The most entries of a host list.
pub const HOSTS_MAX: usize = 16;
/// The greatest limit of a host entry, and the greatest number of local slots.
pub const SLOTS_MAX: u8 = 255;
/// The longest back-off period, in seconds.
pub const PERIOD_MAX: u32 = 1_000_000;
/// The back-off period if none is given, in seconds.
pub const PERIOD_DEFAULT: u32 = 60;
/// The most connections that one worker of `farmd` serves.
pub const CONNECTIONS_MAX: u32 = 100_000;
/// The most bytes of a host's name.
pub const HOST_NAME_MAX: usize = 255;
/// The greatest port.
pub const PORT_MAX: u32 = 65_535;
/// The port of a host and of `farmd` if none is given.
pub const PORT_DEFAULT: u16 = 3_632;
/// The most access rules of `farmd`.
pub const RULES_MAX: usize = 64;
/// The most compilers in the table of `farmd`.
pub const COMPILERS_MAX: usize = 64;
/// The most MiB of the cache of one door.
pub const CACHE_MAX: u32 = 128;
/// The most lines that show a build while it runs.
pub const LINES_MAX: u32 = 100;
/// The most bytes that one receive, or one read of what a program left, has room for.
pub const PIECE_MAX: usize = 65_536;
