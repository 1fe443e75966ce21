//! What the options say.

ghost use Rattle.std.specs.Prelude.{◌≡◌, unwrap_or};
ghost use Rattle.farm_types.specs.Limits.{connections_max, port_default, workers_default};
ghost use Rattle.farmd_options.specs.Options.{book_bound, job_lifetime, shared_bound};

use farm_types::limits::{CONNECTIONS_MAX, PORT_DEFAULT, WORKERS_DEFAULT};

/// The bytes of one MiB.
const MEBIBYTE: u64 = 1_048_576;
/// The seconds of a compile if none are given.
const JOB_LIFETIME_DEFAULT: u32 = 600;

/// What the options say; of the compilers, the rules and the folders of tools, how many there are.
#[derive(Clone, Copy, Debug, PartialEq, Eq)]
pub struct Options {
    /// 1 to 65,535.
    pub port: Option<u16>,
    /// An IPv4 address as a number.
    pub listen: Option<u32>,
    /// 1 to 16.
    pub jobs: Option<u8>,
    /// 1 to 100,000.
    pub serve: Option<u32>,
    /// 1 to 128, in MiB.
    pub cache: Option<u8>,
    /// 1 to 65,536, in MiB. It isn't given beside `cache`.
    pub shared: Option<u32>,
    /// 0 to 1,000,000, in seconds.
    pub job_lifetime: Option<u32>,
    pub compilers: u32,
    pub rules: u32,
    pub tools: u32,
}

impl Options {
    /// The port: 3632 if none is given.
    pub fn port(&self) -> u16
        ensures { result ≡ unwrap_or self.now.port port_default }
    {
        self.port.unwrap_or(PORT_DEFAULT)
    }

    /// The address: 0.0.0.0 if none is given.
    pub fn listen(&self) -> u32
        ensures { result ≡ unwrap_or self.now.listen 0 }
    {
        self.listen.unwrap_or(0)
    }

    /// The number of doors: 4 if none is given.
    pub fn jobs(&self) -> u8
        ensures { result ≡ unwrap_or self.now.jobs workers_default }
    {
        self.jobs.unwrap_or(WORKERS_DEFAULT as u8)
    }

    /// The number of connections of each door: 100,000 if none is given.
    pub fn serve(&self) -> u32
        ensures { result ≡ unwrap_or self.now.serve connections_max }
    {
        self.serve.unwrap_or(CONNECTIONS_MAX)
    }

    /// How many bytes the book of each door's station may have; None if there are no books.
    pub fn book_bound(&self) -> Option<u64>
        ensures { result ≡ book_bound self.now }
    {
        match self.cache {
            Some(mebibytes) => Some(u64::from(mebibytes) * MEBIBYTE),
            None => None,
        }
    }

    /// How many bytes the book that all doors share may have; None if there is none. If there is one, no door has a book of its
    /// own.
    pub fn shared_bound(&self) -> Option<u64>
        ensures { result ≡ shared_bound self.now }
    {
        match self.shared {
            Some(mebibytes) => Some(u64::from(mebibytes) * MEBIBYTE),
            None => None,
        }
    }

    /// The most seconds that a compile may take: 600 if none are given. None if 0 is given, which means as long as it takes.
    pub fn job_lifetime(&self) -> Option<u32>
        ensures { result ≡ job_lifetime self.now }
    {
        match self.job_lifetime.unwrap_or(JOB_LIFETIME_DEFAULT) {
            0 => None,
            seconds => Some(seconds),
        }
    }
}
