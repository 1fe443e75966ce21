//! Why a text gives no job list.

use job_list::JobFault;
use std::alloc::AllocError;
use std::fmt;

/// Why a text gives no job list. Entries count from 0, over the whole database.
#[derive(Clone, Copy, Debug, PartialEq, Eq, Drop)]
pub enum DatabaseFault {
    /// The text isn't JSON in UTF-8 that nests at most 127 deep.
    NotJson,
    /// The value isn't an array.
    NotArray,
    /// An entry is no object, or has no text `directory`.
    NoFolder { entry: usize },
    /// An entry is of another folder than the first, and no folder was named.
    OtherFolder { entry: usize },
    /// No entry is taken.
    NoEntries,
    /// A 513th entry is taken.
    TooMany { entry: usize },
    /// An entry has neither an array of texts `arguments` nor, if `arguments` isn't there, a text `command`.
    NoForm { entry: usize },
    /// A quote in `command` isn't closed, or a backslash is last in it.
    OpenQuote { entry: usize },
    /// An entry has no word.
    NoWords { entry: usize },
    /// A word has a line feed or a zero byte, or isn't UTF-8.
    BadWord { entry: usize },
    /// The job list of the entries that are taken has this fault at this line: the n-th line is that of the n-th entry.
    JobList { line: u32, fault: JobFault },
}

/// What is printed of a fault.
impl fmt::Display for DatabaseFault {
    ghost use Rattle.std.specs.Prelude.{Some};
    ghost use Rattle.compile_database.specs.Faults.{fault_text};

    ghost output = { λ fault. Some (fault_text fault) };

    fn fmt<W: fmt::Write>(&self, f: &mut fmt::Formatter<W>) -> fmt::Result {
        match self {
            DatabaseFault::NotJson => f.write_str("not JSON"),
            DatabaseFault::NotArray => f.write_str("not an array"),
            DatabaseFault::NoFolder { entry } => write!(f, "entry {entry}: no directory"),
            DatabaseFault::OtherFolder { entry } => {
                write!(f, "entry {entry}: another directory, and no --folder")
            }
            DatabaseFault::NoEntries => f.write_str("no entries"),
            DatabaseFault::TooMany { entry } => write!(f, "entry {entry}: more than 512 entries"),
            DatabaseFault::NoForm { entry } => {
                write!(f, "entry {entry}: no arguments and no command")
            }
            DatabaseFault::OpenQuote { entry } => write!(f, "entry {entry}: an open quote"),
            DatabaseFault::NoWords { entry } => write!(f, "entry {entry}: no words"),
            DatabaseFault::BadWord { entry } => {
                write!(f, "entry {entry}: a word that no job list can hold")
            }
            DatabaseFault::JobList { line, fault } => {
                let number = fault.number();
                write!(f, "job list: fault {number} at line {line}")
            }
        }
    }
}

impl std::error::Error for DatabaseFault {}

/// Why a text gives no job list, or that memory ran out.
#[derive(Clone, Copy, Debug, PartialEq, Eq, Drop)]
pub enum DatabaseError {
    /// There is this fault.
    Fault(DatabaseFault),
    /// Memory ran out.
    Memory,
}

impl From<AllocError> for DatabaseError {
    ghost use Rattle.std.specs.Prelude.{◌≡◌};
    ghost use Rattle.compile_database.specs.declared.fault.DatabaseError.TheVariants.{Memory};

    ghost from_gives = { λ _ e. e ≡ Memory };

    fn from(_error: AllocError) -> DatabaseError {
        DatabaseError::Memory
    }
}
